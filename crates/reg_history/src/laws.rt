//! Laws of histories, as the contracts of functions that do nothing of their own.
ghost use Rattle.std.specs.Prelude.{◌≡◌, List};
ghost use Rattle.reg_changes.specs.declared.change.HistoryRecord.{HistoryRecord};
ghost use Rattle.reg_history.specs.Chain.{chained};
ghost use Rattle.reg_history.specs.FactsInWords.{FactsArePublished};
ghost use Rattle.reg_history.specs.Laws.{BytesTellRecords, IsReadBackAs, SameFolderSameBytes};
ghost use Rattle.reg_history.specs.Written.{CanBeWritten};

use crate::history::{History, Unreadable, read};
use std::alloc::Global;

/// The bytes of a history tell its records: no other records have these bytes.
pub fn bytes_tell_records()
    ensures { BytesTellRecords }
{}

/// What is published is a fact of each range, entry, prefix and block, with what is shown of it, and no
/// more.
#[tactic(auto, using(crate::proofs::FactsPublished::facts_published))]
pub fn facts_are_published()
    ensures { FactsArePublished }
{}

/// What is added to a history is a function of its bytes, of what is published and of the moment.
pub fn same_folder_same_bytes()
    ensures { SameFolderSameBytes }
{}

/// A history that this program wrote is read again, as the records that were written, however long it is.
/// Only want of memory is an error.
pub fn written_histories_are_read(alloc: Global, text: &[u8]) -> Result<History, Unreadable>
    ensures { (records : List HistoryRecord) → CanBeWritten records
        → (chained records).text ≡ text.now → IsReadBackAs records result }
{
    read(alloc, text)
}
