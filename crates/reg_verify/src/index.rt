//! The record that an index names.
ghost use Rattle.std.specs.Prelude.{◌≡◌, ◌↔◌, IfOk, IfErr, IsTrue, None, Some, OnOk, option_map};
ghost use Rattle.serde_json.specs.View.{view};
ghost use Rattle.reg_verify.specs.Index.{IsInHistory, changes_in, digest_in, named_in, named_record, record_of};
ghost use Rattle.reg_verify.specs.Strays.{Lists};
ghost use Rattle.reg_verify.specs.Verifying.{Finds, HasHistory, HasIndex, TellsWhy};
ghost use Rattle.reg_history.specs.Chain.{chained};
ghost use Rattle.reg_changes.specs.declared.change.HistoryRecord.{HistoryRecord};
ghost use Rattle.std.specs.Prelude.{List};

use crate::files::bytes_of;
use crate::flaw::{FolderFlaw, Unverified};
use crate::folder::Reads;
use crate::part::FolderPart;
use reg_history::chain::Chain;
use serde_json::Value;
use std::alloc::{AllocError, Global};

/// The last record of a history at the time of an index: how many changes there were, and the digits of
/// the digest of the last one, which are none where there was no change.
#[derive(Drop)]
pub(crate) struct Named {
    pub changes: u64,
    pub digest: String,
}

/// That the record that the index of a folder names is in a history.
pub(crate) fn find_record<F: Reads>(
    alloc: Global,
    folder: &F,
    chain: &Chain,
) -> Result<(), Unverified>
    ensures found { OnOk result
        (HasIndex (Finds F.Tells F.held folder.now) chain.now.digests.items) }
    ensures why { IfErr result (λ why. (all : List HistoryRecord)
        → HasHistory (Finds F.Tells F.held folder.now) all
        → chain.now.digests.items ≡ (chained all).digests
        → TellsWhy (Finds F.Tells F.held folder.now)
        (Lists F.Tells F.listed folder.now) None why) }
{
    let bytes = bytes_of(alloc, folder, &FolderPart::Index)?;
    let Some(named) = named_record(alloc, bytes.as_slice())? else {
        return Err(Unverified::Flawed(FolderFlaw::Unnamed));
    };
    if !is_in(chain, &named) {
        return Err(Unverified::Flawed(FolderFlaw::Index));
    }
    Ok(())
}

// Whether a history has this record. Each has the one before all changes.
fn is_in(chain: &Chain, named: &Named) -> bool
    ensures { IsTrue result ↔ IsInHistory chain.now.digests.items (record_of named.now) }
{
    if named.changes == 0 {
        return named.digest.is_empty();
    }
    chain.has(named.changes, named.digest.as_bytes())
}

// The record that an index names; none where it names none.
fn named_record(alloc: Global, index: &[u8]) -> Result<Option<Named>, AllocError>
    ensures { IfOk result (λ named. option_map record_of named ≡ named_record index.now) }
{
    match Value::from_slice(alloc, index) {
        Ok(value) => named_in(alloc, &value),
        Err(error) => if error.is_memory() {
            Err(AllocError)
        } else {
            Ok(None)
        },
    }
}

fn named_in(alloc: Global, index: &Value) -> Result<Option<Named>, AllocError>
    ensures { IfOk result (λ named. option_map record_of named ≡ named_in (view index.now)) }
{
    let Some(changes) = changes_in(index) else {
        return Ok(None);
    };
    let Some(digest) = digest_in(index) else {
        return Ok(None);
    };
    Ok(Some(Named {
        changes,
        digest: String::from_str(alloc, digest)?,
    }))
}

fn changes_in(index: &Value) -> Option<u64>
    ensures { result ≡ changes_in (view index.now) }
{
    index.get("changes").and_then(Value::as_u64)
}

fn digest_in(index: &Value) -> Option<&str>
    ensures { option_map (λ s. s.now) result ≡ digest_in (view index.now) }
{
    index.get("digest").and_then(Value::as_str)
}
