//! Marks of held entries in their table.
ghost use Rattle.std.specs.Prelude.{◌≡◌, ◌&&◌, ℕ, true, false, not, is_some, IfOk, map};
ghost use Rattle.std.specs.BTreeSet as set;
ghost use Rattle.std.specs.FinMap.{contains_key};
ghost use Rattle.std.specs.List.{list_any};
ghost use Rattle.std.specs.Ordering.{nat_cmp};
ghost use Rattle.sqlite.specs.Held.{state};
ghost use Rattle.reg_maps.specs.Maps.{same_text, update};
ghost use Rattle.reg_core.specs.Entry.{with_hold};
ghost use Rattle.reg_core.specs.World.{World};
ghost use Rattle.reg_statements.specs.Defined.{rows_where};
ghost use Rattle.reg_statements.specs.Office as office;
ghost use Rattle.reg_rows.specs.Calls.{IsKeeping, LooksIn, Steps};
ghost use Rattle.reg_rows.specs.Marks.{IsHeldSo, entry_held, entry_marked, held_among, is_among, marked_by};

use crate::kept::{add, find, list, take};
use reg_core::entry::Entry;
use reg_core::text::Name;
use reg_keeper::keeper::Fault;
use reg_ranges::formed::Formed;
use reg_records::column::{name_value, number_value};
use reg_records::holds::Hold;
use reg_statements::loads::Loads;
use reg_tables::reports::Reports;
use reg_tables::texts::{DELETE_HOLD, INSERT_HOLDS, SELECT_HOLD, SELECT_HOLDS_OF};
use sqlite::{Connection, Transaction};
use std::alloc::{AllocError, Global};
use std::collections::BTreeSet;

/// An entry with its mark, if it has one. Only for one that expires is its mark looked up.
pub fn marked<S: Reports + Loads>(
    alloc: Global,
    conn: &mut Connection<S>,
    entry: Entry,
) -> Result<Entry, Fault>
    requires { IsKeeping (state S.Store conn.old) }
    ensures { LooksIn (state S.Store conn.old) (state S.Store conn.new) result
        (λ p marked. marked ≡ entry_marked p entry.registry entry) }
{
    match is_marked(alloc, conn, &entry) {
        Ok(held) => Ok(with_mark(entry, held)),
        Err(fault) => Err(fault),
    }
}

/// Entries of a registry with their marks. These are read once, and only where an entry expires.
pub fn marked_all<S: Reports + Loads>(
    alloc: Global,
    conn: &mut Connection<S>,
    registry: &Name,
    entries: Vec<Entry>,
) -> Result<Vec<Entry>, Fault>
    requires { IsKeeping (state S.Store conn.old) }
    ensures { LooksIn (state S.Store conn.old) (state S.Store conn.new) result
        (λ p marked. marked.items ≡ map (entry_marked p registry.now) entries.items) }
{
    let marks = marks_if(alloc, conn, registry, entries.as_slice())?;
    Ok(with_marks(alloc, entries, marks)?)
}

/// Marks an entry that expires and is not held, or takes the mark of one away that is.
pub fn set_hold<S: Reports>(
    tx: &mut Transaction<'_, S>,
    registry: &Name,
    value: u32,
    held: bool,
) -> Result<(), Fault>
    ensures same_reference { tx.new.conn.ghost_name ≡ tx.old.conn.ghost_name }
    ensures steps { Steps (state S.Store tx.old.conn.now) (state S.Store tx.new.conn.now) result
        (IsHeldSo (not held) (registry.now, value))
        (λ (w : World). record w {
          entries = update w.entries (registry.now, value) (with_hold held);
        }) }
{
    let hold = Hold {
        registry: *registry,
        value,
    };
    if held {
        add_hold(tx, &hold)
    } else {
        take_hold(tx, &hold)
    }
}

/// Marks an entry that expires and is not held.
#[tactic(auto, using(crate::proofs::Statements::adds_hold))]
pub fn add_hold<S: Reports>(tx: &mut Transaction<'_, S>, hold: &Hold) -> Result<(), Fault>
    ensures same_reference { tx.new.conn.ghost_name ≡ tx.old.conn.ghost_name }
    ensures steps { Steps (state S.Store tx.old.conn.now) (state S.Store tx.new.conn.now) result
        (IsHeldSo false (hold.now.registry, hold.now.value))
        (λ (w : World). record w {
          entries = update w.entries (hold.now.registry, hold.now.value) (with_hold true);
        }) }
{
    hold.formed();
    add::<S, Hold>(tx, INSERT_HOLDS, &hold.values())
}

/// Takes the mark of an entry away, if it has one.
#[tactic(auto, using(crate::proofs::Statements::takes_hold))]
pub fn take_hold<S: Reports>(tx: &mut Transaction<'_, S>, hold: &Hold) -> Result<(), Fault>
    ensures same_reference { tx.new.conn.ghost_name ≡ tx.old.conn.ghost_name }
    ensures steps { Steps (state S.Store tx.old.conn.now) (state S.Store tx.new.conn.now) result
        (λ (w : World). Unit {0})
        (λ (w : World). record w {
          entries = update w.entries (hold.now.registry, hold.now.value) (with_hold false);
        }) }
{
    take::<S, Hold>(tx, DELETE_HOLD, &hold.values())
}

/// Whether an entry has a mark. One that does not expire has none, and is not looked up.
fn is_marked<S: Reports + Loads>(
    alloc: Global,
    conn: &mut Connection<S>,
    entry: &Entry,
) -> Result<bool, Fault>
    requires { IsKeeping (state S.Store conn.old) }
    ensures { LooksIn (state S.Store conn.old) (state S.Store conn.new) result
        (λ p held. held ≡ (is_some entry.now.term.expires
        && contains_key p.holds (entry.now.registry, entry.now.value))) }
{
    if expires(entry) {
        is_held(alloc, conn, &entry.registry, entry.value)
    } else {
        Ok(false)
    }
}

/// Whether the entry at a value of a registry has a mark.
#[tactic(auto, using(reg_tables::proofs::Statements::hold_by_key))]
fn is_held<S: Reports + Loads>(
    alloc: Global,
    conn: &mut Connection<S>,
    registry: &Name,
    value: u32,
) -> Result<bool, Fault>
    requires { IsKeeping (state S.Store conn.old) }
    ensures { LooksIn (state S.Store conn.old) (state S.Store conn.new) result
        (λ p held. held ≡ contains_key p.holds (registry.now, value)) }
{
    let found = find::<S, Hold>(
        alloc,
        conn,
        SELECT_HOLD,
        &[name_value(registry), number_value(value)],
    )?;
    Ok(found.is_some())
}

/// The marks of a registry, where an entry of these expires.
#[tactic(auto, using(reg_tables::proofs::Statements::holds_of_registry))]
fn marks_if<S: Reports + Loads>(
    alloc: Global,
    conn: &mut Connection<S>,
    registry: &Name,
    entries: &[Entry],
) -> Result<Vec<Hold>, Fault>
    requires { IsKeeping (state S.Store conn.old) }
    ensures { LooksIn (state S.Store conn.old) (state S.Store conn.new) result
        (λ p marks. list_any (λ e. is_some e.term.expires) entries.now ≡ true
        → marks.items ≡ rows_where office.holds (λ place u. same_text place.0 registry.now) p) }
{
    if !any_expires(entries) {
        return Ok(Vec::new(alloc));
    }
    list::<S, Hold>(alloc, conn, SELECT_HOLDS_OF, &[name_value(registry)])
}

/// Entries, those that expire with a mark where their values are among those of the marks.
fn with_marks(
    alloc: Global,
    entries: Vec<Entry>,
    marks: Vec<Hold>,
) -> Result<Vec<Entry>, AllocError>
    ensures { IfOk result (λ marked. marked.items ≡ map (held_among marks.items) entries.items) }
{
    let values = values_of(alloc, marks)?;
    marked_among(alloc, entries, &values)
}

/// The values of marks.
fn values_of(alloc: Global, marks: Vec<Hold>) -> Result<BTreeSet<u32>, AllocError>
    ensures { IfOk result (λ values.
        (value : ℕ) → set.contains nat_cmp values value ≡ is_among marks.items value) }
{
    let mut values = BTreeSet::new(alloc);
    for mark in marks {
        values.insert(mark.value)?;
    }
    Ok(values)
}

/// Entries, those that expire with a mark where their values are among these.
fn marked_among(
    alloc: Global,
    entries: Vec<Entry>,
    values: &BTreeSet<u32>,
) -> Result<Vec<Entry>, AllocError>
    ensures { IfOk result (λ marked. marked.items ≡ map (marked_by values.now) entries.items) }
{
    entries
        .into_iter()
        .map(|entry| marked_by(entry, values))
        .collect(alloc)
}

/// An entry, with a mark if it expires and its value is among these.
fn marked_by(entry: Entry, values: &BTreeSet<u32>) -> Entry
    ensures { result ≡ marked_by values.now entry }
{
    let held = expires(&entry) && values.contains(&entry.value);
    with_mark(entry, held)
}

/// Whether an entry of these has an expiry.
fn any_expires(entries: &[Entry]) -> bool
    ensures { result ≡ list_any (λ e. is_some e.term.expires) entries.now }
{
    entries.iter().any(expires)
}

/// Whether an entry has an expiry.
fn expires(entry: &Entry) -> bool
    ensures { result ≡ is_some entry.now.term.expires }
{
    entry.term.expires.is_some()
}

/// An entry with a mark or without.
fn with_mark(mut entry: Entry, held: bool) -> Entry
    ensures { result ≡ entry_held held entry }
{
    entry.term = entry.term.with_hold(held);
    entry
}
