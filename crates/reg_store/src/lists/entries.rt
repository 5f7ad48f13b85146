//! Entries by their registries, and then by value.
ghost use Rattle.std.specs.Prelude.{◌≡◌, IfOk, OnOk, OnErr, map, option_map};
ghost use Rattle.std.specs.FinMap as fin;
ghost use Rattle.std.specs.List.Sorted.{IsStrictlyIncreasing};
ghost use Rattle.std.specs.Ordering.{nat_cmp};
ghost use Rattle.reg_maps.specs.Maps.{text_cmp, update};
ghost use Rattle.reg_maps.specs.Groups.{pair_map};
ghost use Rattle.reg_core.specs.Entry.{entry_row as entry_of, registration_in, with_hold};
ghost use Rattle.reg_core.specs.Page.{entry_rows};
ghost use Rattle.reg_core.specs.View.{entries_of};

use crate::groups::{change_row, list_group, put_row, row_in};
use reg_core::entry::{Entry, Registration};
use reg_core::rows::Rows;
use reg_core::text::Name;
use std::alloc::{AllocError, Global};
use std::collections::BTreeMap;

/// Entries by registry, and then by value.
pub type Entries = BTreeMap<Name, BTreeMap<u32, Registration>>;

/// The entry of a registry at a value.
pub fn entry_in(entries: &Entries, registry: &Name, value: u32) -> Result<Option<Entry>, AllocError>
    ensures { IfOk result (λ entry. entry ≡ option_map (entry_of registry.now value)
        (fin.get (pair_map text_cmp nat_cmp entries.now) (registry.now, value))) }
{
    match row_in(entries, registry, &value) {
        Some(registration) => Ok(Some(entry_row(registry, value, registration)?)),
        None => Ok(None),
    }
}

/// All entries of a registry, by value.
pub fn entries_in(
    alloc: Global,
    entries: &Entries,
    registry: &Name,
) -> Result<Rows<Entry>, AllocError>
    ensures rows { IfOk result (λ rows. rows ≡
        entry_rows (entries_of registry.now (pair_map text_cmp nat_cmp entries.now))) }
    ensures ascending { IfOk result (λ rows. IsStrictlyIncreasing (map (λ e. e.value) rows)) }
{
    Ok(Rows::from_vec(list_group(
        alloc,
        entries,
        registry,
        |value, registration| entry_row(registry, *value, registration),
    )?))
}

fn entry_row(registry: &Name, value: u32, registration: &Registration) -> Result<Entry, AllocError>
    ensures { IfOk result (λ entry. entry ≡ entry_of registry.now value registration.now) }
{
    let term = registration.term;
    Ok(Entry {
        registry: *registry,
        value,
        label: registration.label.copy()?,
        assignee: registration.assignee,
        term,
    })
}

/// Adds an entry, or replaces the one at its registry and value.
pub fn put_entry(alloc: Global, entries: &mut Entries, entry: Entry) -> Result<(), AllocError>
    ensures ok { OnOk result (pair_map text_cmp nat_cmp entries.new ≡ fin.insert
        (pair_map text_cmp nat_cmp entries.old)
        (entry.registry, entry.value) (registration_in entry)) }
    ensures err { OnErr result (pair_map text_cmp nat_cmp entries.new
        ≡ pair_map text_cmp nat_cmp entries.old) }
{
    let registration = Registration {
        label: entry.label,
        assignee: entry.assignee,
        term: entry.term,
    };
    put_row(alloc, entries, entry.registry, entry.value, registration)
}

/// Says of the entry of a registry at a value, if it is there, whether it is held.
pub fn set_hold(entries: &mut Entries, registry: &Name, value: u32, held: bool)
    ensures { pair_map text_cmp nat_cmp entries.new ≡ update
        (pair_map text_cmp nat_cmp entries.old) (registry.now, value) (with_hold held) }
{
    change_row(entries, registry, &value, |registration| {
        registration.term = registration.term.with_hold(held);
    });
}
