//! Verifies a published folder.
ghost use Rattle.std.specs.Prelude.{◌≡◌, ◌++◌, List, None, Some, IfOk, IfErr, OnOk};
ghost use Rattle.std.specs.Option.{option_copied};
ghost use Rattle.reg_history.specs.Chain.{says};
ghost use Rattle.reg_changes.specs.declared.change.HistoryRecord.{HistoryRecord};
ghost use Rattle.reg_history.specs.History.{IsHistory, SaysJust};
ghost use Rattle.reg_verify.specs.Strays.{Lists};
ghost use Rattle.reg_verify.specs.Verifying.{Finds, IsHistoryIn, IsNotedIn, IsUnlikeBy, IsUnnotedBy, IsVerified, TellsWhy, last_text, verified_text};

use crate::files::bytes_of;
use crate::flaw::{FolderFlaw, Unverified};
use crate::folder::Reads;
use crate::index::find_record;
use crate::part::FolderPart;
use crate::registries::facts_in;
use crate::strays::stray_in;
use reg_changes::change::Fact;
use reg_history::chain::Chain;
use reg_history::history::{History, Unlike, read};
use std::alloc::{AllocError, Global};

/// How many digits of a digest are noted at least.
const LEAST_DIGITS: usize = 16;

/// Verifies a published folder, and gives the digests of its history. The history is whole: each record has
/// the number and the digest that follow from those before it. It has the record that the index names, and
/// a digest that begins with the digits that were noted, if any were. What it says is just what the JSON of
/// each registry, the pool and the listing of the blocks publish; each listing of a registry is that of its
/// JSON; and there is no JSON and no listing of another registry. Each file is read once.
pub fn verify_in<F: Reads>(
    alloc: Global,
    folder: &F,
    digits: Option<&[u8]>,
) -> Result<Chain, Unverified>
    ensures verified { IfOk result (λ chain. IsVerified (Finds F.Tells F.held folder.now)
        (Lists F.Tells F.listed folder.now) (option_copied digits.entry) chain.digests.items) }
    ensures why { IfErr result (TellsWhy (Finds F.Tells F.held folder.now)
        (Lists F.Tells F.listed folder.now) (option_copied digits.entry)) }
{
    let chain = chain_in(alloc, folder)?;
    match digits {
        None => Ok(chain),
        Some(digits) => {
            find_noted(&chain, digits)?;
            Ok(chain)
        }
    }
}

// The digests of the history of a folder, whose files say what it says. A stray file is an error only where
// nothing else is wrong.
fn chain_in<F: Reads>(alloc: Global, folder: &F) -> Result<Chain, Unverified>
    ensures verified { IfOk result (λ chain. IsVerified (Finds F.Tells F.held folder.now)
        (Lists F.Tells F.listed folder.now) None chain.digests.items) }
    ensures why { IfErr result (TellsWhy (Finds F.Tells F.held folder.now)
        (Lists F.Tells F.listed folder.now) None) }
{
    let history = history_in(alloc, folder)?;
    find_record(alloc, folder, &history.chain)?;
    let facts = facts_in(alloc, folder, &history.said)?;
    let stray = stray_in(alloc, folder, &history.said)?;
    let chain = compared(alloc, history, facts.as_slice())?;
    match stray {
        None => Ok(chain),
        Some(file) => Err(Unverified::Flawed(FolderFlaw::Stray(file))),
    }
}

// The history of a folder.
fn history_in<F: Reads>(alloc: Global, folder: &F) -> Result<History, Unverified>
    ensures history { IfOk result (IsHistoryIn (Finds F.Tells F.held folder.now)) }
    ensures why { IfErr result (TellsWhy (Finds F.Tells F.held folder.now)
        (Lists F.Tells F.listed folder.now) None) }
{
    let text = bytes_of(alloc, folder, &FolderPart::History)?;
    Ok(read(alloc, text.as_slice())?)
}

// The digests of a history that says just these facts.
fn compared(alloc: Global, history: History, facts: &[Fact]) -> Result<Chain, Unverified>
    ensures same { IfOk result (λ chain. chain ≡ history.chain) }
    ensures says { OnOk result ((records : List HistoryRecord) → IsHistory history records
        → SaysJust records facts.now) }
    ensures why { IfErr result (λ why. (records : List HistoryRecord) → IsHistory history records
        → IsUnlikeBy (says records) facts.now why) }
{
    match history.says_just(alloc, facts) {
        Ok(chain) => Ok(chain),
        Err(Unlike::Memory) => Err(Unverified::Memory),
        Err(Unlike::Subject(subject)) => Err(Unverified::Flawed(FolderFlaw::Subject(subject))),
    }
}

// That there are enough of these digits, and that a digest of a history begins with them.
fn find_noted(chain: &Chain, digits: &[u8]) -> Result<(), Unverified>
    ensures noted { OnOk result (IsNotedIn chain.now.digests.items (Some digits.now)) }
    ensures why { IfErr result (IsUnnotedBy chain.now.digests.items digits.now) }
{
    if digits.len() < LEAST_DIGITS {
        return Err(Unverified::Flawed(FolderFlaw::Short));
    }
    if chain.has_front(digits) {
        Ok(())
    } else {
        Err(Unverified::Flawed(FolderFlaw::Digest))
    }
}

/// What is said of a folder that was verified: how many changes its history has, and the digest of the
/// last one, if there is one. Only want of memory is an error.
pub fn verified_text(alloc: Global, chain: &Chain) -> Result<Vec<u8>, AllocError>
    ensures { IfOk result (λ text. text.items ≡ verified_text chain.now.digests.items) }
{
    let count = chain.count();
    let mut text = format!(in alloc; "verified {count} changes")?.into_bytes();
    push_last(&mut text, chain)?;
    text.push(b'\n')?;
    Ok(text)
}

// Appends the digest of the last record, if there is one.
fn push_last(text: &mut Vec<u8>, chain: &Chain) -> Result<(), AllocError>
    ensures { OnOk result
        (text.new.items ≡ text.old.items ++ last_text chain.now.digests.items) }
{
    if chain.count() == 0 {
        return Ok(());
    }
    text.extend_from_slice(b", last ")?;
    text.extend_from_slice(chain.last_digest())
}
