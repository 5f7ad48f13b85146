//! Reads range tables from range files.
ghost use Rattle.reg_json.specs.Members.{Gives};
ghost use Rattle.reg_parse.specs.RangeFile.{table_of};

use reg_core::wire_refusal::ReadFault;
use reg_ranges::range_file::read_ranges;
use reg_ranges::table::RangeTable;
use std::alloc::Global;

/// The table of 0 to `max` whose ranges this range file lists. `Ranges` with the first fault of the
/// file, or else of its ranges.
#[tactic(auto, unfolding(crate::specs::RangeFile::table_of))]
pub fn read_table(alloc: Global, max: u32, file: &[u8]) -> Result<RangeTable, ReadFault>
    ensures { Gives result (table_of max file.now) }
{
    let ranges = read_ranges(alloc, file)?;
    Ok(RangeTable::make(max, ranges)?)
}
