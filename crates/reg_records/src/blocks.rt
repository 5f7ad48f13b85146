//! Blocks that were given, with their holders, as rows of the table `blocks`.
ghost use Rattle.std.specs.Prelude.{◌≡◌};
ghost use Rattle.sqlite.specs.Values.{bound};
ghost use Rattle.reg_blocks.specs.Block.{block_cmp};
ghost use Rattle.reg_blocks.specs.Size.{address_count};
ghost use Rattle.reg_records.specs.Blocks.{block_at, block_in, holding_in, holding_values};

use crate::column::{
    flag, flag_value, name, name_value, printable, printable_value, whole, whole_value, word,
    word_value,
};
use crate::record::{Keyed, Record, in_form};
use reg_blocks::block::Block;
use reg_blocks::size::Size;
use reg_core::holding::Holding;
use sqlite::Row;
use sqlite::types::ValueRef;
use std::alloc::{AllocError, Global};
use std::cmp::Ordering;

impl Record for Holding {
    ghost of = { holding_in };

    fn read(alloc: Global, row: &Row) -> Result<Option<Self>, AllocError> {
        let block = in_form!(block_in(row));
        let holder = in_form!(name(row, 2));
        let organization = in_form!(printable(alloc, row, 3)?);
        let address = in_form!(printable(alloc, row, 4)?);
        let private = in_form!(flag(row, 5));
        Ok(Some(Holding {
            block,
            holder,
            organization,
            address,
            private,
        }))
    }
}

impl Keyed for Holding {
    ghost order = { λ a b. block_cmp a.block b.block };

    fn compare(&self, other: &Self) -> Ordering {
        self.block.cmp(&other.block)
    }
}

/// The row that is written for a holding: first, size, holder, organization, address, private.
pub fn holding_values(holding: &Holding) -> [ValueRef<'_>; 6]
    ensures { bound result ≡ holding_values holding.now }
{
    [
        whole_value(holding.block.first()),
        word_value(&holding.block.size()),
        name_value(&holding.holder),
        printable_value(&holding.organization),
        printable_value(&holding.address),
        flag_value(holding.private),
    ]
}

// The block that the first two columns tell.
fn block_in(row: &Row) -> Option<Block>
    ensures { result ≡ block_in row.now }
{
    let first = whole(row, 0)?;
    let size = word(row, 1)?;
    block_at(size, first)
}

/// The block of this size whose first address this is.
pub(crate) fn block_at(size: Size, first: u64) -> Option<Block>
    ensures { result ≡ block_at size first }
{
    let count = address_count(size);
    if first % count != 0 {
        return None;
    }
    Block::make(size, first / count)
}

fn address_count(size: Size) -> u64
    ensures { result ≡ address_count size }
{
    match size {
        Size::MaL => 1 << 24,
        Size::MaM => 1 << 20,
        Size::MaS => 1 << 12,
    }
}
