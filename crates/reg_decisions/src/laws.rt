//! Laws of the rows that are published.
ghost use Rattle.std.specs.Prelude.{ℕ, List};
ghost use Rattle.std.specs.FinMap.{keys};
ghost use Rattle.std.specs.List.Sorted.{IsNonDecreasingBy, IsStrictlyIncreasing};
ghost use Rattle.reg_blocks.specs.Block.{first_address};
ghost use Rattle.reg_core.specs.LeastFree.{values_in};
ghost use Rattle.reg_core.specs.View.{Published};

/// The values of a registry that have entries ascend, and so do the blocks that were given, by first
/// address. So published rows are such as `check_ask` requires.
pub fn published_rows_ascend()
    ensures values { (p : Published) (registry : List ℕ)
        → IsStrictlyIncreasing (values_in registry p.entries) }
    ensures blocks { (p : Published) → IsNonDecreasingBy first_address (keys p.blocks) }
{}
