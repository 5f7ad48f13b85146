//! What a folder has of earlier publications.
ghost use Rattle.std.specs.Prelude.{◌≡◌, ◌↔◌, ℕ, List, Option, Some, IfErr, IfOk, IsTrue, option_map};
ghost use Rattle.std.specs.Option.{option_copied};
ghost use Rattle.reg_history.specs.Chain.{header_line};
ghost use Rattle.reg_history.specs.History.{IsHistoryOf};
ghost use Rattle.reg_publish.specs.Earlier.{HasRecord, IsTied, behind_first, digest_in, named_record, text_there};
ghost use Rattle.reg_publish.specs.Faults.{HistoryIsUnread};
ghost use Rattle.reg_site.specs.Files.{path_of};
ghost use Rattle.reg_site.specs.declared.files.File.TheVariants as file;

use crate::faults::{HistoryFault, PublishFault};
use reg_history::chain::Chain;
use reg_history::history::{HEADER, History, read};
use reg_print::comparing::{behind, until};
use reg_ranges::number::read_number;
use reg_site::files::File;
use reg_source::folder::Folder;
use std::alloc::{AllocError, Global};

/// The history that a folder has: its bytes, and what they say.
#[derive(Drop)]
pub struct Earlier {
    pub text: Vec<u8>,
    pub history: History,
}

/// Reads the history of a folder; where there is none, and no index for programs, it has no record yet.
/// `Missing` where there is an index but no history, `Header` or `Record` where the history is wrong,
/// and `Index` where it has not the record that the index names.
pub fn read_earlier<F: Folder>(alloc: Global, folder: &F) -> Result<Earlier, PublishFault>
    ensures history { IfOk result (λ earlier. IsHistoryOf earlier.history earlier.text.items) }
    ensures there { F.Tells → IfOk result (λ earlier. earlier.text.items
        ≡ text_there (F.held folder.now (path_of file.Changes))) }
    ensures tied { F.Tells → IfOk result (λ earlier.
        IsTied (F.held folder.now (path_of file.IndexTree)) earlier.history.chain.digests.items) }
    ensures why { F.Tells → IfErr result (HistoryIsUnread (F.held folder.now (path_of file.Changes))
        (F.held folder.now (path_of file.IndexTree))) }
{
    let changes = folder.read(alloc, File::Changes)?;
    let index = folder.read(alloc, File::IndexTree)?;
    if changes.is_none() && index.is_some() {
        return Err(PublishFault::History(HistoryFault::Missing));
    }
    let earlier = earlier_of(alloc, changes)?;
    if !is_tied(&earlier.history.chain, &index) {
        return Err(PublishFault::History(HistoryFault::Index));
    }
    Ok(earlier)
}

// The history with these bytes; one without a record where there are none.
fn earlier_of(alloc: Global, changes: Option<Vec<u8>>) -> Result<Earlier, PublishFault>
    ensures history { IfOk result (λ earlier. IsHistoryOf earlier.history earlier.text.items) }
    ensures there { IfOk result (λ earlier. earlier.text.items
        ≡ text_there (option_map (λ v. v.items) changes)) }
    ensures why { IfErr result (λ why. (index : Option (List ℕ))
        → HistoryIsUnread (option_map (λ v. v.items) changes) index why) }
{
    match changes {
        Some(text) => {
            let history = read(alloc, text.as_slice())?;
            Ok(Earlier { text, history })
        }
        None => Ok(begun(alloc)?),
    }
}

// A history without a record.
fn begun(alloc: Global) -> Result<Earlier, AllocError>
    ensures history { IfOk result (λ earlier. IsHistoryOf earlier.history earlier.text.items) }
    ensures text { IfOk result (λ earlier. earlier.text.items ≡ header_line) }
{
    let mut text = Vec::new(alloc);
    text.extend_from_slice(HEADER)?;
    let history = History::new(alloc)?;
    Ok(Earlier { text, history })
}

// Whether a history has the record that an index names, if there is one.
fn is_tied(chain: &Chain, index: &Option<Vec<u8>>) -> bool
    ensures { IsTrue result
        ↔ IsTied (option_map (λ v. v.items) index.now) chain.now.digests.items }
{
    match index {
        None => true,
        Some(text) => names_record(chain, text.as_slice()),
    }
}

// Whether a history has the record that this index names.
fn names_record(chain: &Chain, index: &[u8]) -> bool
    ensures { IsTrue result ↔ IsTied (Some index.now) chain.now.digests.items }
{
    match named_record(index) {
        Some(named) => has_record(chain, named),
        None => false,
    }
}

fn has_record(chain: &Chain, named: IndexedRecord<'_>) -> bool
    ensures { IsTrue result
        ↔ HasRecord chain.now.digests.items named.entry.number named.entry.digest.now }
{
    if named.number == 0 {
        return named.digest.is_empty();
    }
    chain.has(u64::from(named.number), named.digest)
}

// ---- The record that an index names

// A record by its number and its digest.
#[derive(Clone, Copy)]
struct IndexedRecord<'a> {
    number: u32,
    digest: &'a [u8],
}

// What stands before the number of a record in an index, between it and its digest, and behind this.
const MARK: &[u8] = b"\"changes\":";

const BEFORE_DIGEST: &[u8] = b",\"digest\":\"";

const BEHIND_DIGEST: &[u8] = b"\",\"registers\":[";

// The record that an index for programs names; none where it names none.
fn named_record(index: &[u8]) -> Option<IndexedRecord<'_>>
    ensures { option_map (λ named. (named.number, named.digest.now)) result ≡ named_record index.now }
{
    let rest = behind_first(MARK, index)?;
    let (digits, rest) = until(b',', rest)?;
    let number = read_number(digits)?;
    let rest = behind(BEFORE_DIGEST, rest)?;
    let digest = digest_in(rest)?;
    Some(IndexedRecord { number, digest })
}

// The digest with which a text begins, where what follows it in an index stands behind it.
fn digest_in(text: &[u8]) -> Option<&[u8]>
    ensures { option_copied result ≡ digest_in text.now }
{
    let (digest, rest) = until(b'"', text)?;
    behind(BEHIND_DIGEST, rest)?;
    Some(digest)
}

// What stands in a text behind the first place of this front.
fn behind_first<'a>(front: &[u8], text: &'a [u8]) -> Option<&'a [u8]>
    ensures { option_copied result ≡ behind_first front.now text.now }
{
    for place in 0..text.len() {
        if let Some(rest) = behind(front, &text[place..]) {
            return Some(rest);
        }
    }
    None
}
