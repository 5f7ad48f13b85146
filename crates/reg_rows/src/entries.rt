//! Entries in their table.
ghost use Rattle.std.specs.Prelude.{◌≡◌, true, false, IfOk, IsTrue, map, option_map};
ghost use Rattle.std.specs.FinMap.{get};
ghost use Rattle.std.specs.List.Sorted.{IsStrictlyIncreasing};
ghost use Rattle.sqlite.specs.Held.{state};
ghost use Rattle.reg_maps.specs.RowMaps.{IsTable, held_in};
ghost use Rattle.reg_core.specs.Entry.{entry_row, registration_in, with_hold};
ghost use Rattle.reg_core.specs.Page.{entry_rows};
ghost use Rattle.reg_core.specs.View.{entries_of};
ghost use Rattle.reg_core.specs.WellKept.{has_entry_form};
ghost use Rattle.reg_core.specs.World.{World, place_cmp};
ghost use Rattle.reg_tables.specs.Connection.{Endures, Holds, IsIdle, Stays};
ghost use Rattle.reg_tables.specs.Schema.{entries_table};
ghost use Rattle.reg_rows.specs.Calls.{IsKeeping, Looks, Steps};
ghost use Rattle.reg_rows.specs.Changing.{MayBeHeld, with_registration};
ghost use Rattle.reg_rows.specs.Marks.{IsUnheld};
ghost use Rattle.reg_statements.specs.Content.{registration_at};

use crate::holds::{add_hold, marked, marked_all, take_hold};
use crate::kept::{find, list, put};
use reg_core::entry::Entry;
use reg_core::rows::Rows;
use reg_core::text::Name;
use reg_keeper::keeper::Fault;
use reg_ranges::formed::Formed;
use reg_records::column::{name_value, number_value};
use reg_records::entries::entry_values;
use reg_records::holds::Hold;
use reg_statements::loads::Loads;
use reg_statements::select::all;
use reg_tables::reports::Reports;
use reg_tables::texts::{PUT_ENTRY, SELECT_ENTRIES, SELECT_ENTRIES_OF, SELECT_ENTRY};
use sqlite::{Connection, Transaction};
use std::alloc::Global;

/// The entry of a registry at a value.
#[tactic(auto, using(reg_tables::proofs::Statements::entry_by_key))]
pub fn entry<S: Reports + Loads>(
    alloc: Global,
    conn: &mut Connection<S>,
    registry: &Name,
    value: u32,
) -> Result<Option<Entry>, Fault>
    requires { IsKeeping (state S.Store conn.old) }
    ensures { Looks (state S.Store conn.old) (state S.Store conn.new) result
        (λ w entry. entry ≡
        option_map (entry_row registry.now value) (get w.entries (registry.now, value))) }
{
    let found = find::<S, Entry>(
        alloc,
        conn,
        SELECT_ENTRY,
        &[name_value(registry), number_value(value)],
    )?;
    match found {
        Some(entry) => Ok(Some(marked(alloc, conn, entry)?)),
        None => Ok(None),
    }
}

/// All entries of a registry, by value. Their values ascend whatever the premise.
#[tactic(auto, using(reg_tables::proofs::Statements::entries_of_registry))]
pub fn entries<S: Reports + Loads>(
    alloc: Global,
    conn: &mut Connection<S>,
    registry: &Name,
) -> Result<Rows<Entry>, Fault>
    requires { IsKeeping (state S.Store conn.old) }
    ensures rows { Looks (state S.Store conn.old) (state S.Store conn.new) result
        (λ w entries. entries ≡ entry_rows (entries_of registry.now w.entries)) }
    ensures ascending { IfOk result
        (λ entries. IsStrictlyIncreasing (map (λ e. e.value) entries)) }
{
    let rows = list::<S, Entry>(alloc, conn, SELECT_ENTRIES_OF, &[name_value(registry)])?;
    let rows = marked_all(alloc, conn, registry, rows)?;
    if values_ascend(rows.as_slice()) {
        Ok(Rows::from_vec(rows))
    } else {
        Err(Fault::Store)
    }
}

/// The entries of all registries, by registry and then by value, without their marks. Where there
/// is an answer, the rows of the table are these entries, no two at one place.
#[tactic(auto, using(reg_tables::proofs::Statements::all_entries))]
pub fn all_entries<S: Reports + Loads>(
    alloc: Global,
    conn: &mut Connection<S>,
) -> Result<Vec<Entry>, Fault>
    requires { IsIdle (state S.Store conn.old) }
    ensures idle { IsIdle (state S.Store conn.new) }
    ensures endures { Endures (state S.Store conn.old) (state S.Store conn.new) }
    ensures stays { Stays (state S.Store conn.old) (state S.Store conn.new) }
    ensures table { Holds (state S.Store conn.new) → IfOk result (λ rows.
        IsTable place_cmp registration_at ((state S.Store conn.old).now.trees entries_table.tree)) }
    ensures rows { Holds (state S.Store conn.new) → IfOk result (λ rows.
        rows.items ≡ entry_rows (held_in registration_at
        ((state S.Store conn.old).now.trees entries_table.tree))) }
{
    all(alloc, conn, SELECT_ENTRIES, &[])
}

/// Puts an entry with its mark in the place of the one at its value of its registry, or adds it
/// where there is none. One that does not expire has no mark.
pub fn put_entry<S: Reports>(tx: &mut Transaction<'_, S>, entry: &Entry) -> Result<(), Fault>
    ensures same_reference { tx.new.conn.ghost_name ≡ tx.old.conn.ghost_name }
    ensures steps { Steps (state S.Store tx.old.conn.now) (state S.Store tx.new.conn.now) result
        (λ (w : World). MayBeHeld entry.now)
        (with_registration (entry.now.registry, entry.now.value) (registration_in entry.now)) }
{
    let hold = Hold {
        registry: entry.registry,
        value: entry.value,
    };
    take_hold(tx, &hold)?;
    put_unheld(tx, entry)?;
    if entry.term.held {
        return add_hold(tx, &hold);
    }
    Ok(())
}

/// Puts an entry without its mark at its value of its registry, where none stands that is held.
#[tactic(auto, using(crate::proofs::Statements::puts_entry))]
fn put_unheld<S: Reports>(tx: &mut Transaction<'_, S>, entry: &Entry) -> Result<(), Fault>
    ensures same_reference { tx.new.conn.ghost_name ≡ tx.old.conn.ghost_name }
    ensures steps { Steps (state S.Store tx.old.conn.now) (state S.Store tx.new.conn.now) result
        (IsUnheld (entry.now.registry, entry.now.value))
        (with_registration (entry.now.registry, entry.now.value)
        (with_hold false (registration_in entry.now))) }
{
    formed(entry);
    put::<S, Entry>(tx, PUT_ENTRY, &entry_values(entry))
}

/// Whether each entry has a greater value than the one before it.
fn values_ascend(entries: &[Entry]) -> bool
    ensures { IsTrue result → IsStrictlyIncreasing (map (λ e. e.value) entries.now) }
{
    entries.is_sorted_by(|entry, next| entry.value < next.value)
}

/// Does nothing: the parts of an entry have their forms.
#[tactic(auto, using(std::proofs::lemmas::Bool::Decides::nat_tests))]
fn formed(entry: &Entry)
    ensures { has_entry_form (entry.now.registry, entry.now.value) (registration_in entry.now)
        ≡ true }
{
    entry.registry.formed();
    let _value = entry.value;
    entry.label.formed();
    entry.assignee.formed();
    entry.term.formed();
}
