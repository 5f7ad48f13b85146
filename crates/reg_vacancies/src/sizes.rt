//! The free blocks of each size, by the runs of their prefixes.
ghost use Rattle.std.specs.Prelude.{◌≡◌, ℕ, ◌+◌, ◌*◌, ◌<◌, ◌^◌, ◌⊎◌, ◌↔◌, Contains, IsTrue, Ok, OnOk, OnErr};
ghost use Rattle.reg_maps.specs.Spans.{Lies};
ghost use Rattle.reg_blocks.specs.Block.{SizedPrefix, Clash, leading_24};
ghost use Rattle.reg_blocks.specs.Pool.{is_pool_prefix, AddsPrefix};
ghost use Rattle.reg_vacancies.specs.Sizes.{AreBlocks, AreOpen, ArePooled, AreSameRuns, AreSound, FreeOf, GainsRun, IsLeastPlace};
ghost use Rattle.reg_vacancies.specs.BlockSpans.{AreDisjoint, IsInside};

use crate::block_spans::{Spans, clear, fill, least, open};
use reg_blocks::block::Block;
use reg_blocks::size::Size;
use std::alloc::AllocError;
use std::collections::BTreeSet;

// How many addresses a block of each size has.
const LARGE: u64 = 1 << 24;

const MEDIUM: u64 = 1 << 20;

const SMALL: u64 = 1 << 12;

/// The block of the size with the least prefix in the runs.
pub fn due_among(spans: &Spans, size: Size) -> Option<Block>
    requires apart { AreDisjoint spans.now }
    requires blocks { AreBlocks spans.now size }
    ensures { IsLeastPlace spans.now size result }
{
    Block::make(size, least(spans)?)
}

/// Takes away the blocks of each size that share an address with one. The steps that may need
/// memory come first, and leave the free blocks as they were.
pub fn give_block(
    large: &mut Spans,
    medium: &mut Spans,
    small: &mut Spans,
    block: &Block,
) -> Result<(), AllocError>
    requires { AreSound large.old medium.old small.old }
    ensures sound { AreSound large.new medium.new small.new }
    ensures ok { OnOk result ((other : SizedPrefix) → FreeOf large.new medium.new small.new other
        ↔ (FreeOf large.old medium.old small.old other × ¬ Clash other block.now)) }
    ensures err { OnErr result ((other : SizedPrefix) → FreeOf large.new medium.new small.new other
        ↔ FreeOf large.old medium.old small.old other) }
{
    open_all(large, medium, small, block)?;
    clear_all(large, medium, small, block);
    Ok(())
}

// Cuts the runs of each size where the block begins and ends.
fn open_all(
    large: &mut Spans,
    medium: &mut Spans,
    small: &mut Spans,
    block: &Block,
) -> Result<(), AllocError>
    requires { AreSound large.old medium.old small.old }
    ensures sound { AreSound large.new medium.new small.new }
    ensures open { OnOk result (AreOpen large.new medium.new small.new block.now) }
    ensures same { (other : SizedPrefix) → FreeOf large.new medium.new small.new other
        ↔ FreeOf large.old medium.old small.old other }
{
    let first = block.first();
    let last = block.last();
    open(large, first / LARGE, last / LARGE)?;
    open(medium, first / MEDIUM, last / MEDIUM)?;
    open(small, first / SMALL, last / SMALL)
}

// Takes the block away from the runs of each size.
fn clear_all(large: &mut Spans, medium: &mut Spans, small: &mut Spans, block: &Block)
    requires sound { AreSound large.old medium.old small.old }
    requires open { AreOpen large.old medium.old small.old block.now }
    ensures sound { AreSound large.new medium.new small.new }
    ensures gone { (other : SizedPrefix) → FreeOf large.new medium.new small.new other
        ↔ (FreeOf large.old medium.old small.old other × ¬ Clash other block.now) }
{
    let first = block.first();
    let last = block.last();
    clear(large, first / LARGE, last / LARGE);
    clear(medium, first / MEDIUM, last / MEDIUM);
    clear(small, first / SMALL, last / SMALL);
}

/// A prefix and its blocks, or, where there is no memory for them, neither. One that is there
/// changes nothing.
pub fn add_pooled(
    prefixes: &mut BTreeSet<u32>,
    large: &mut Spans,
    medium: &mut Spans,
    small: &mut Spans,
    prefix: u32,
) -> Result<(), AllocError>
    requires sound { AreSound large.old medium.old small.old }
    requires pooled { ArePooled prefixes.old large.old medium.old small.old }
    requires form { IsTrue (is_pool_prefix prefix) }
    ensures sound { AreSound large.new medium.new small.new }
    ensures pooled { ArePooled prefixes.new large.new medium.new small.new }
    ensures pool { OnOk result (AddsPrefix prefixes.old.keys prefixes.new.keys prefix) }
    ensures ok { OnOk result ((block : SizedPrefix) → FreeOf large.new medium.new small.new block
        ↔ (((leading_24 block ≡ prefix) × ¬ Contains prefixes.old.keys prefix)
        ⊎ FreeOf large.old medium.old small.old block)) }
    ensures there { Contains prefixes.old.keys prefix → result ≡ Ok tt }
    ensures err_pool { OnErr result (prefixes.new.keys ≡ prefixes.old.keys) }
    ensures err { OnErr result ((block : SizedPrefix) → FreeOf large.new medium.new small.new block
        ↔ FreeOf large.old medium.old small.old block) }
{
    if !prefixes.insert(prefix)? {
        return Ok(());
    }
    match add_places(large, medium, small, u64::from(prefix)) {
        Ok(()) => Ok(()),
        Err(error) => {
            prefixes.remove(&prefix);
            Err(error)
        }
    }
}

// The blocks of a prefix, of each size, or, where there is no memory for those of one, none.
fn add_places(
    large: &mut Spans,
    medium: &mut Spans,
    small: &mut Spans,
    prefix: u64,
) -> Result<(), AllocError>
    requires sound { AreSound large.old medium.old small.old }
    requires form { IsTrue (is_pool_prefix prefix) }
    requires absent { (block : SizedPrefix) → FreeOf large.old medium.old small.old block
        → ¬ (leading_24 block ≡ prefix) }
    ensures sound { AreSound large.new medium.new small.new }
    ensures ok { OnOk result ((block : SizedPrefix) → FreeOf large.new medium.new small.new block
        ↔ ((leading_24 block ≡ prefix) ⊎ FreeOf large.old medium.old small.old block)) }
    ensures err { OnErr result ((block : SizedPrefix) → FreeOf large.new medium.new small.new block
        ↔ FreeOf large.old medium.old small.old block) }
{
    fill(large, prefix, prefix)?;
    match add_smaller(medium, small, prefix) {
        Ok(()) => Ok(()),
        Err(error) => {
            clear(large, prefix, prefix);
            Err(error)
        }
    }
}

// The medium and the small blocks of a prefix, or neither.
fn add_smaller(medium: &mut Spans, small: &mut Spans, prefix: u64) -> Result<(), AllocError>
    requires bits { prefix < 2 ^ 24 }
    requires medium { AreDisjoint medium.old }
    requires small { AreDisjoint small.old }
    requires no_medium { (n : ℕ) → IsInside (prefix * 16) (prefix * 16 + 15) n
        → ¬ Lies medium.old n }
    requires no_small { (n : ℕ) → IsInside (prefix * 4096) (prefix * 4096 + 4095) n
        → ¬ Lies small.old n }
    ensures medium { AreDisjoint medium.new }
    ensures small { AreDisjoint small.new }
    ensures ok_medium { OnOk result (GainsRun medium.old medium.new (prefix * 16) (prefix * 16 + 15)) }
    ensures ok_small { OnOk result (GainsRun small.old small.new (prefix * 4096) (prefix * 4096 + 4095)) }
    ensures err_medium { OnErr result (AreSameRuns medium.old medium.new) }
    ensures err_small { OnErr result (AreSameRuns small.old small.new) }
{
    let lo = prefix * 16;
    let hi = lo + 15;
    fill(medium, lo, hi)?;
    match fill(small, prefix * 4096, prefix * 4096 + 4095) {
        Ok(()) => Ok(()),
        Err(error) => {
            clear(medium, lo, hi);
            Err(error)
        }
    }
}
