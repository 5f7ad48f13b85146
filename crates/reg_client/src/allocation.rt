//! Early allocations that are due: those that expire soon.
ghost use Rattle.std.specs.Prelude.{◌≡◌, ◌++◌, ◌-◌, IfOk, OnOk, nat_le};
ghost use Rattle.std.specs.Option.{option_to_list};
ghost use Rattle.reg_client.specs.Allocation.{as_due, day_within, due_entry, due_on, expiry_within};

use reg_core::entry::PageEntry;
use reg_core::page::Page;
use reg_core::text::{Account, Name, Text};
use reg_early::day::Day;
use reg_early::term::Status;
use std::alloc::AllocError;

/// An early allocation that is due.
#[derive(Drop)]
pub struct DueAllocation {
    /// The registry that it is in.
    pub registry: Name,
    /// The value that is allocated.
    pub value: u32,
    /// What the value stands for.
    pub description: Text,
    /// Whose it is.
    pub assignee: Account,
    /// The day from which it no longer stands, unless it is held.
    pub expires: Day,
    /// Whether a clerk holds it, so that it does not expire.
    pub held: bool,
}

/// The expiry day of an entry that is Temporary on its page, where it is at most so many days after
/// today. That of an allocation that is held may have passed.
pub fn expiry_within(entry: &PageEntry, today: Day, days: u32) -> Option<Day>
    ensures { result ≡ expiry_within today days entry.now }
{
    match entry.status {
        Status::Temporary => day_within(entry.term.expires, today, days),
        Status::Assigned | Status::Expired => None,
    }
}

// A day, if it is at most so many days after today.
fn day_within(expires: Option<Day>, today: Day, days: u32) -> Option<Day>
    ensures { result ≡ day_within today days expires }
{
    match expires {
        Some(expiry) if is_within(expiry, today, days) => Some(expiry),
        _ => None,
    }
}

fn is_within(expiry: Day, today: Day, days: u32) -> bool
    ensures { result ≡ nat_le (expiry - today) days }
{
    expiry.days().saturating_sub(today.days()) <= days
}

/// Appends the allocations of a page that are due within so many days from today, in the order of
/// the page. Only want of memory is an error.
pub fn push_due(
    due: &mut Vec<DueAllocation>,
    page: &Page,
    today: Day,
    days: u32,
) -> Result<(), AllocError>
    ensures { OnOk result (due.new.items ≡ due.old.items ++ due_on today days page.now) }
{
    for entry in page.entries.as_slice() {
        push_if_due(due, page.name, entry, today, days)?;
    }
    Ok(())
}

// Appends an entry of a registry, if it is due.
fn push_if_due(
    due: &mut Vec<DueAllocation>,
    registry: Name,
    entry: &PageEntry,
    today: Day,
    days: u32,
) -> Result<(), AllocError>
    ensures { OnOk result (due.new.items
        ≡ due.old.items ++ option_to_list (due_entry registry today days entry.now)) }
{
    if let Some(expires) = expiry_within(entry, today, days) {
        due.push(due_entry(registry, entry, expires)?)?;
    }
    Ok(())
}

// An entry of a registry, which expires on this day.
fn due_entry(registry: Name, entry: &PageEntry, expires: Day) -> Result<DueAllocation, AllocError>
    ensures { IfOk result (λ due. due ≡ as_due registry entry.now expires) }
{
    Ok(DueAllocation {
        registry,
        value: entry.value,
        description: entry.label.copy()?,
        assignee: entry.assignee,
        expires,
        held: entry.term.held,
    })
}
