//! How many rows of each kind an office has, requests apart.
ghost use Rattle.std.specs.Prelude.{◌≡◌, length};
ghost use Rattle.reg_core.specs.CapRows.{cap_rows};
ghost use Rattle.reg_core.specs.Counting.{cap_counts, counts as all_counts, entries_in, entry_counts};
ghost use Rattle.reg_core.specs.Holding.{listed_rows, masked_blocks};
ghost use Rattle.reg_core.specs.declared.command.ClerkCommand.TheVariants.{CountRows};
ghost use Rattle.reg_keeper.specs.Keeper.{Selects};
ghost use Rattle.reg_registers.specs.Answers.{answer_to_clerk};
ghost use Rattle.reg_registers.specs.Caller.{stamp_by};
ghost use Rattle.reg_registers.specs.Performs.{Performs};

use crate::caller::Caller;
use crate::stop::Stop;
use reg_core::counts::{CapCounts, Counts, EntryCounts};
use reg_core::text::Name;
use reg_core::told::Told;
use reg_early::day::Day;
use reg_keeper::keeper::{Fault, Keeper};

/// How many rows of each kind there are, as a clerk is told it.
pub fn tell_counts<K: Keeper>(keeper: &mut K, caller: &Caller) -> Result<Told, Stop>
    ensures { Performs K.world K.Holds K.Sound K.FAILS (stamp_by caller.now)
        keeper.old keeper.new result (answer_to_clerk caller.now CountRows) }
{
    Ok(Told::Counts(count(keeper, caller.moment, caller.day)?))
}

/// How many rows of each kind there are on a day, at a moment in seconds since
/// 1970-01-01T00:00:00Z, requests apart. One kind is read after the other. `Memory` where there is
/// none, or where the entries are more than a number can say.
pub fn count<K: Keeper>(keeper: &mut K, moment: u64, today: Day) -> Result<Counts, Fault>
    ensures { Selects K.world K.Holds K.Sound K.FAILS keeper.old keeper.new result
        (λ w given. given ≡ all_counts moment today w) }
{
    let names = keeper.names()?;
    let entries = count_entries(keeper, names.as_slice(), today)?;
    let caps = count_caps(keeper, moment)?;
    let pool = keeper.pool()?;
    let blocks = count_blocks(keeper)?;
    let links = keeper.links()?;
    Ok(Counts {
        registries: names.as_slice().len(),
        entries,
        caps,
        prefixes: pool.prefixes().len(),
        blocks,
        agents: links.as_slice().len(),
    })
}

// The entries of registries, one registry after the other.
fn count_entries<K: Keeper>(
    keeper: &mut K,
    names: &[Name],
    today: Day,
) -> Result<EntryCounts, Fault>
    ensures { Selects K.world K.Holds K.Sound K.FAILS keeper.old keeper.new result
        (λ w given. given ≡ entry_counts today (entries_in names.now w)) }
{
    let mut counts = EntryCounts::of(&[], today);
    for name in names {
        let entries = keeper.entries(name)?;
        let more = EntryCounts::of(entries.as_slice(), today);
        counts = counts.plus(more).ok_or(Fault::Memory)?;
    }
    Ok(counts)
}

fn count_caps<K: Keeper>(keeper: &mut K, moment: u64) -> Result<CapCounts, Fault>
    ensures { Selects K.world K.Holds K.Sound K.FAILS keeper.old keeper.new result
        (λ w given. given ≡ cap_counts moment (cap_rows w.caps)) }
{
    let caps = keeper.caps()?;
    Ok(CapCounts::of(caps.as_slice(), moment))
}

fn count_blocks<K: Keeper>(keeper: &mut K) -> Result<usize, Fault>
    ensures { Selects K.world K.Holds K.Sound K.FAILS keeper.old keeper.new result
        (λ w given. given ≡ length (listed_rows (masked_blocks w.blocks))) }
{
    let blocks = keeper.blocks()?;
    Ok(blocks.as_slice().len())
}
