//! The block that is given next, by the list of the blocks that were given.
//!
//! These calls are for users of this library. The program does not run them: an office keeps what
//! is free as runs of blocks, by `reg_vacancies`.
ghost use Rattle.std.specs.Prelude.{◌≡◌, ◌*◌, ◌^◌, ◌<◌, ◌≤◌, ◌↔◌, length, IsTrue, IsNone, IfSome};
ghost use Rattle.std.specs.List.Sorted.{IsNonDecreasingBy};
ghost use Rattle.reg_blocks.specs.Block.{first_address};
ghost use Rattle.reg_blocks.specs.Due.{IsDue, NoneIsFree, block_due};
ghost use Rattle.reg_blocks.specs.Sweep.{EndBefore, Swept};

use crate::block::Block;
use crate::pool::Pool;
use crate::size::Size;

/// What the sweep over one prefix of the pool finds.
enum Sweep {
    /// The prefix of the free block with the least first address.
    Free(u64),
    /// None is free; so many of the given blocks end with the prefix or before.
    Full(usize),
}

/// Whether the blocks ascend by first address, as `least_free` asks of those that were given.
pub fn ascends(blocks: &[Block]) -> bool
    ensures { IsTrue result ↔ IsNonDecreasingBy first_address blocks.now }
{
    blocks.is_sorted_by_key(|block| block.first())
}

/// The block due: of the free blocks of this size the one with the least first address, or none
/// where none is free. A block is free where it lies in a prefix of the pool and shares no address
/// with a given block.
///
/// The given blocks ascend by first address, as sorted blocks do. They are passed once, and no
/// memory is taken.
pub fn least_free(pool: &Pool, given: &[Block], size: Size) -> Option<Block>
    requires ascending { IsNonDecreasingBy first_address given.now }
    ensures due { IfSome result (IsDue pool.now given.now size) }
    ensures none { IsNone result ↔ NoneIsFree pool.now given.now size }
    ensures trial { result ≡ block_due pool.now given.now size }
{
    let mut passed = 0;
    for prefix in pool.prefixes() {
        match sweep_prefix(*prefix, given, passed, size) {
            Sweep::Free(candidate) => return Block::make(size, candidate),
            Sweep::Full(end) => passed = end,
        }
    }
    None
}

/// Sweeps over the blocks of one prefix, past the given blocks that do not end before it. A
/// candidate that ends before the next given block is free; one that does not makes way for the
/// first one past that block.
fn sweep_prefix(prefix: u32, given: &[Block], passed: usize, size: Size) -> Sweep
    requires bits { prefix < 2 ^ 24 }
    requires ascending { IsNonDecreasingBy first_address given.now }
    requires within { passed ≤ length given.now }
    requires passed { EndBefore given.now passed (prefix * 2 ^ 24) }
    ensures { Swept prefix given.now size result }
{
    let count = size.address_count();
    let mut candidate = u64::from(prefix) * size.blocks_in_prefix();
    let end = candidate + size.blocks_in_prefix();
    for i in passed..given.len() {
        let block = given[i];
        if (candidate + 1) * count <= block.first() {
            break;
        }
        candidate = candidate.max(block.last() / count + 1);
        if candidate >= end {
            return Sweep::Full(i + 1);
        }
    }
    Sweep::Free(candidate)
}
