//! Reads lists of capabilities.
use crate::reading::members::Members;
use json::Scratch;
use reg_core::capability::{Cap, CapRow, Kind, Until};
use reg_core::rows::Rows;
use reg_core::text::{Account, DIGEST_BYTES, Digest};
use reg_source::unpublished::Unpublished;
use std::alloc::Global;

/// The capabilities in an array. Of a digest only the first digits are there: those after them are taken
/// for zeros.
pub(super) fn read(alloc: Global, body: &[u8]) -> Result<Rows<CapRow>, Unpublished> {
    let mut scratch = Scratch::new(alloc);
    let mut members = Members::new(&mut scratch, body)?;
    read_rows(alloc, &mut members)
}

fn read_rows(alloc: Global, members: &mut Members<'_>) -> Result<Rows<CapRow>, Unpublished> {
    members.open_array()?;
    let mut rows = Vec::new(alloc);
    push_rows(&mut rows, members)?;
    Ok(Rows::from_vec(rows))
}

fn push_rows(rows: &mut Vec<CapRow>, members: &mut Members<'_>) -> Result<(), Unpublished> {
    for _ in 0..u64::MAX {
        if members.closes_array() {
            return members.end();
        }
        rows.push(read_row(members)?)?;
    }
    Err(Unpublished::Read)
}

fn read_row(members: &mut Members<'_>) -> Result<CapRow, Unpublished> {
    members.open_object()?;
    let account = Account::read(members.text("account")?.as_bytes());
    let digest = digest_of(members.text("digest")?.as_bytes());
    let kind = Kind::read(members.text("kind")?.as_bytes());
    let until = until_of(members.digits("until")?);
    members.close_object()?;
    Ok(CapRow {
        digest: digest.ok_or(Unpublished::Read)?,
        cap: Cap {
            account: account.ok_or(Unpublished::Read)?,
            kind: kind.ok_or(Unpublished::Read)?,
            until: until.ok_or(Unpublished::Read)?,
        },
    })
}

// The digest that begins with these digits, and goes on with zeros.
fn digest_of(digits: &[u8]) -> Option<Digest> {
    let mut bytes = [b'0'; DIGEST_BYTES];
    bytes.get_mut(..digits.len())?.copy_from_slice(digits);
    Digest::read(&bytes)
}

fn until_of(digits: &str) -> Option<Until> {
    Until::from_seconds(digits.parse().ok()?)
}
