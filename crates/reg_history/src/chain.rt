//! Records, each of which is tied to all before it by a digest.
ghost use Rattle.std.specs.Prelude.{◌≡◌, ◌↔◌, ◌<◌, ◌++◌, ◌∷◌, [], map, length, codes, IfOk, IsTrue, OnOk};
ghost use Rattle.hex.specs.Hex.{encode_lower};
ghost use Rattle.sha2.specs.Sha256.{sha256};
ghost use Rattle.csv.specs.Writing.{default_writer, row_body};
ghost use Rattle.reg_history.specs.Chain.{HasDigest, digest, digest_of, last_digest, line, line_of, record_of};
ghost use Rattle.reg_history.specs.Noted.{some_begins};
ghost use Rattle.reg_history.specs.Texts.{texts_of};

use crate::texts::Texts;
use reg_changes::change::PublishedChange;
use reg_changes::field::Field;
use reg_print::listing::writing::{empty, text_of, write_record};
use sha2::{Digest, Sha256};
use std::alloc::{AllocError, Global};

/// How many digits a digest has.
pub const DIGITS: usize = 64;

/// The bytes of a record, and its digest in lower-case hexadecimal.
#[derive(Drop)]
pub struct RecordLine {
    pub bytes: Vec<u8>,
    pub digest: [u8; DIGITS],
}

impl RecordLine {
    /// The record of this number, by the digits of the digest before it, by which a change was published
    /// at a moment. Only want of memory is an error.
    pub fn of(
        alloc: Global,
        number: u64,
        before: &[u8],
        moment: &Field,
        change: &PublishedChange,
    ) -> Result<Self, AllocError>
        ensures bytes { IfOk result (λ l. l.bytes.items
            ≡ line before.now number (record_of moment.now change.now)) }
        ensures digest { IfOk result (λ l. l.digest
            ≡ digest before.now number (record_of moment.now change.now)) }
    {
        let number = format!(in alloc; "{number}")?;
        let texts = Texts::of(number.as_str(), moment.as_str(), change);
        let front = front(alloc, texts)?;
        RecordLine::behind(before, front)
    }

    /// The record of these fields, of which there are two at least, by the digits of the digest before it.
    /// Only want of memory is an error.
    pub fn of_fields(alloc: Global, before: &[u8], fields: &[&[u8]]) -> Result<Self, AllocError>
        requires { 1 < length fields.now }
        ensures bytes { IfOk result (λ l. l.bytes.items
            ≡ line_of before.now (map (λ f. f.now) fields.now)) }
        ensures digest { IfOk result (λ l. l.digest
            ≡ digest_of before.now (map (λ f. f.now) fields.now)) }
    {
        let front = front_of(alloc, fields)?;
        RecordLine::behind(before, front)
    }

    // The record whose bytes up to its digest are these.
    fn behind(before: &[u8], front: Vec<u8>) -> Result<Self, AllocError>
        ensures bytes { IfOk result (λ l. l.bytes.items
            ≡ front.items ++ (encode_lower (sha256 (before.now ++ front.items)) ++ codes "\n")) }
        ensures digest { IfOk result (λ l. l.digest
            ≡ encode_lower (sha256 (before.now ++ front.items))) }
    {
        let mut bytes = front;
        let digest = hash_of(before, bytes.as_slice());
        bytes.extend_from_slice(&digest)?;
        bytes.push(b'\n')?;
        Ok(RecordLine { bytes, digest })
    }
}

/// The digests of records, each in lower-case hexadecimal.
#[derive(Drop)]
pub struct Chain {
    pub digests: Vec<[u8; DIGITS]>,
}

impl Chain {
    /// The digests of no record. It takes no memory.
    pub fn new(alloc: Global) -> Self
        ensures { result.digests.items ≡ [] }
    {
        Chain {
            digests: Vec::new(alloc),
        }
    }

    /// Adds the digest of the record that comes next. Only want of memory is an error.
    pub fn push(&mut self, digest: [u8; DIGITS]) -> Result<(), AllocError>
        ensures { OnOk result (self.new.digests.items ≡ self.old.digests.items ++ digest ∷ []) }
    {
        self.digests.push(digest)?;
        Ok(())
    }

    /// How many records there are.
    pub fn count(&self) -> u64
        ensures { result ≡ length self.now.digests.items }
    {
        self.digests.len() as u64
    }

    /// Whether the record of this number has this digest. There is none of number 0.
    pub fn has(&self, number: u64, digest: &[u8]) -> bool
        ensures { IsTrue result ↔ HasDigest self.now.digests.items number digest.now }
    {
        if number == 0 || self.count() < number {
            return false;
        }
        is_same(&self.digests[(number - 1) as usize], digest)
    }

    /// Whether the digest of some record begins with these digits.
    pub fn has_front(&self, digits: &[u8]) -> bool
        ensures { result ≡ some_begins digits.now self.now.digests.items }
    {
        self.digests.iter().any(|digest| digest.starts_with(digits))
    }

    /// The digits of the last digest; none where there is no record.
    pub fn last_digest(&self) -> &[u8]
        ensures { result.now ≡ last_digest self.now.digests.items }
    {
        match self.digests.last() {
            Some(digest) => digest.as_slice(),
            None => &[],
        }
    }
}

// Whether these are the digits of a digest.
fn is_same(digest: &[u8; DIGITS], digits: &[u8]) -> bool
    ensures { IsTrue result ↔ (digest.now ≡ digits.now) }
{
    digest.as_slice() == digits
}

// The digest of a record, by that of the record before and by its own bytes up to the comma.
fn hash_of(before: &[u8], front: &[u8]) -> [u8; DIGITS]
    ensures { result ≡ encode_lower (sha256 (before.now ++ front.now)) }
{
    let mut hasher = Sha256::new();
    hasher.update(before);
    hasher.update(front);
    let hash: [u8; 32] = hasher.finalize();
    let mut digits = [0; DIGITS];
    hex::encode_to_slice(hash.as_slice(), &mut digits).unwrap();
    digits
}

// The bytes of a record up to and including the comma before its digest.
fn front(alloc: Global, texts: Texts<'_>) -> Result<Vec<u8>, AllocError>
    ensures { IfOk result (λ v. v.items
        ≡ row_body default_writer (texts_of texts.entry) ++ codes ",") }
{
    front_of(
        alloc,
        &[
            texts.number.as_bytes(),
            texts.moment.as_bytes(),
            texts.registry.as_bytes(),
            texts.change.as_bytes(),
            texts.value.as_bytes(),
            texts.description.as_bytes(),
            texts.policy.as_bytes(),
            texts.first.as_bytes(),
            texts.expires.as_bytes(),
            texts.held.as_bytes(),
            texts.assignee.as_bytes(),
        ],
    )
}

// These fields as CSV, and a comma.
fn front_of(alloc: Global, fields: &[&[u8]]) -> Result<Vec<u8>, AllocError>
    requires { 1 < length fields.now }
    ensures { IfOk result (λ v. v.items
        ≡ row_body default_writer (map (λ f. f.now) fields.now) ++ codes ",") }
{
    let mut writer = empty(alloc);
    write_record(&mut writer, fields)?;
    let mut text = text_of(writer)?;
    text.pop();
    text.push(b',')?;
    Ok(text)
}
