//! What anybody may ask.
ghost use Rattle.std.specs.Prelude.{◌≡◌, map, IfOk};
ghost use Rattle.reg_core.specs.Answer.{public_answer};
ghost use Rattle.reg_core.specs.Page.{page_entries};
ghost use Rattle.reg_core.specs.View.{published};
ghost use Rattle.reg_core.specs.declared.journal.Stamp.{Stamp};
ghost use Rattle.reg_keeper.specs.Keeper.{Selects};
ghost use Rattle.reg_registers.specs.Pages.{page_on, shown_on};
ghost use Rattle.reg_registers.specs.Performs.{LooksUp, Performs};

use crate::stop::Stop;
use reg_core::command::PublicCommand;
use reg_core::entry::{Entry, PageEntry};
use reg_core::page::{Page, PageEntries};
use reg_core::refusal::Refusal;
use reg_core::text::Name;
use reg_core::told::Told;
use reg_early::day::Day;
use reg_keeper::keeper::{Fault, Keeper};
use std::alloc::{AllocError, Global};

/// What anybody's command is answered on a day.
pub fn perform<K: Keeper>(
    alloc: Global,
    keeper: &mut K,
    today: Day,
    command: &PublicCommand,
) -> Result<Told, Stop>
    ensures { (stamp : Stamp) → Performs K.world K.Holds K.Sound K.FAILS stamp
        keeper.old keeper.new result (λ w. public_answer (published w) today command.now) }
{
    Ok(match command {
        PublicCommand::Registries => Told::Names(keeper.names()?),
        PublicCommand::Registry(name) => Told::Page(page(alloc, keeper, today, name)?),
        PublicCommand::RegistryCsv(name) => { Told::Sheet(page(alloc, keeper, today, name)?) }
        PublicCommand::PoolList => Told::Pool(keeper.pool()?),
        PublicCommand::BlocksCsv => Told::Blocks(keeper.blocks()?),
    })
}

// The registry of this name as it is on a day.
fn page<K: Keeper>(alloc: Global, keeper: &mut K, today: Day, name: &Name) -> Result<Page, Stop>
    ensures { LooksUp K.world K.Holds K.Sound K.FAILS keeper.old keeper.new result
        (λ w. page_on (published w) name.now today) }
{
    let table = keeper.ranges(name)?.ok_or(Refusal::Registry)?;
    let entries = entries_on(alloc, keeper, today, name)?;
    Ok(Page {
        name: *name,
        table,
        entries,
    })
}

// A registry's entries as they are on a day.
fn entries_on<K: Keeper>(
    alloc: Global,
    keeper: &mut K,
    today: Day,
    name: &Name,
) -> Result<PageEntries, Fault>
    ensures { Selects K.world K.Holds K.Sound K.FAILS keeper.old keeper.new result
        (λ w entries. entries ≡ page_entries (published w) name.now today) }
{
    let entries = keeper.entries(name)?;
    Ok(PageEntries::from_vec(shown(alloc, entries.into_vec(), today)?))
}

fn shown(alloc: Global, entries: Vec<Entry>, today: Day) -> Result<Vec<PageEntry>, AllocError>
    ensures { IfOk result (λ shown. shown.items ≡ map (shown_on today) entries.items) }
{
    entries
        .into_iter()
        .map(|entry| show(entry, today))
        .collect(alloc)
}

/// An entry as a page shows it on a day.
pub fn show(entry: Entry, today: Day) -> PageEntry
    ensures { result ≡ shown_on today entry }
{
    let status = entry.term.status(today);
    PageEntry {
        label: entry.label,
        value: entry.value,
        term: entry.term,
        assignee: entry.assignee,
        status,
    }
}
