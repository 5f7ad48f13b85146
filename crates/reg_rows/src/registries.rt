//! Registries with their ranges in their tables.
ghost use Rattle.std.specs.Prelude.{◌≡◌, Some, None, IfOk, [], map, option_map};
ghost use Rattle.std.specs.FinMap.{get, insert, keys};
ghost use Rattle.sqlite.specs.Held.{state};
ghost use Rattle.reg_maps.specs.Maps.{update};
ghost use Rattle.reg_ranges.specs.Tables.{Table};
ghost use Rattle.reg_core.specs.World.{World};
ghost use Rattle.reg_rows.specs.Calls.{IsKeeping, Looks, Steps};
ghost use Rattle.reg_rows.specs.Registries.{CanFollow, with_range};

use crate::kept::{add, find, list};
use reg_core::rows::Rows;
use reg_core::text::Name;
use reg_keeper::keeper::Fault;
use reg_ranges::formed::Formed;
use reg_ranges::range::Range;
use reg_ranges::table::RangeTable;
use reg_records::column::name_value;
use reg_records::ranges::RegistryRange;
use reg_records::registries::Registry;
use reg_statements::loads::Loads;
use reg_tables::reports::Reports;
use reg_tables::texts::{
    INSERT_RANGES, INSERT_REGISTRIES, SELECT_RANGES_OF, SELECT_REGISTRIES, SELECT_REGISTRY,
};
use sqlite::{Connection, Transaction};
use std::alloc::{AllocError, Global};

/// The names of all registries, in order.
#[tactic(auto, using(reg_tables::proofs::Statements::all_registries))]
pub fn names<S: Reports + Loads>(
    alloc: Global,
    conn: &mut Connection<S>,
) -> Result<Rows<Name>, Fault>
    requires { IsKeeping (state S.Store conn.old) }
    ensures { Looks (state S.Store conn.old) (state S.Store conn.new) result
        (λ w names. names ≡ keys w.registries) }
{
    let registries = list::<S, Registry>(alloc, conn, SELECT_REGISTRIES, &[])?;
    Ok(Rows::from_vec(names_of(alloc, registries.as_slice())?))
}

/// The ranges of a registry, with its largest value. Ranges that are no partition of its values
/// are a fault of the store.
pub fn ranges<S: Reports + Loads>(
    alloc: Global,
    conn: &mut Connection<S>,
    name: &Name,
) -> Result<Option<RangeTable>, Fault>
    requires { IsKeeping (state S.Store conn.old) }
    ensures { Looks (state S.Store conn.old) (state S.Store conn.new) result
        (λ w table. table ≡ get w.registries name.now) }
{
    let Some(max) = max(alloc, conn, name)? else {
        return Ok(None);
    };
    let ranges = ranges_of(alloc, conn, name)?;
    match RangeTable::make(max, ranges) {
        Ok(table) => Ok(Some(table)),
        Err(_) => Err(Fault::Store),
    }
}

/// Adds a registry with its ranges, where there is none of the name.
pub fn add_registry<S: Reports>(
    tx: &mut Transaction<'_, S>,
    name: &Name,
    table: &RangeTable,
) -> Result<(), Fault>
    ensures same_reference { tx.new.conn.ghost_name ≡ tx.old.conn.ghost_name }
    ensures steps { Steps (state S.Store tx.old.conn.now) (state S.Store tx.new.conn.now) result
        (λ (w : World). get w.registries name.now ≡ None)
        (λ (w : World). record w { registries = insert w.registries name.now table.now }) }
{
    add_name(tx, name, table.max())?;
    let ranges = table.ranges();
    for range in ranges {
        add_range(tx, name, range)?;
    }
    Ok(())
}

/// Adds a registry that has no ranges yet, where there is none of the name.
#[tactic(auto, using(crate::proofs::Statements::adds_registry))]
fn add_name<S: Reports>(tx: &mut Transaction<'_, S>, name: &Name, max: u32) -> Result<(), Fault>
    ensures same_reference { tx.new.conn.ghost_name ≡ tx.old.conn.ghost_name }
    ensures steps { Steps (state S.Store tx.old.conn.now) (state S.Store tx.new.conn.now) result
        (λ (w : World). get w.registries name.now ≡ None)
        (λ (w : World). record w {
          registries = insert w.registries name.now (record { max = max; ranges = [] });
        }) }
{
    let registry = Registry { name: *name, max };
    registry.formed();
    add::<S, Registry>(tx, INSERT_REGISTRIES, &registry.values())
}

/// Adds a range to a registry whose ranges all begin below it.
#[tactic(auto, using(crate::proofs::Statements::adds_range))]
fn add_range<S: Reports>(
    tx: &mut Transaction<'_, S>,
    name: &Name,
    range: &Range,
) -> Result<(), Fault>
    ensures same_reference { tx.new.conn.ghost_name ≡ tx.old.conn.ghost_name }
    ensures steps { Steps (state S.Store tx.old.conn.now) (state S.Store tx.new.conn.now) result
        (λ (w : World). CanFollow w.registries name.now range.now)
        (λ (w : World). record w {
          registries = update w.registries name.now (with_range range.now);
        }) }
{
    let row = RegistryRange {
        registry: *name,
        range: range.copy()?,
    };
    row.formed();
    add::<S, RegistryRange>(tx, INSERT_RANGES, &row.values())
}

/// The largest value of a registry.
#[tactic(auto, using(reg_tables::proofs::Statements::registry_by_key))]
fn max<S: Reports + Loads>(
    alloc: Global,
    conn: &mut Connection<S>,
    name: &Name,
) -> Result<Option<u32>, Fault>
    requires { IsKeeping (state S.Store conn.old) }
    ensures { Looks (state S.Store conn.old) (state S.Store conn.new) result
        (λ w max. max ≡ option_map (λ (t : Table). t.max) (get w.registries name.now)) }
{
    let registry = find::<S, Registry>(alloc, conn, SELECT_REGISTRY, &[name_value(name)])?;
    Ok(registry.map(|registry| registry.max))
}

/// The ranges of a registry, in order.
#[tactic(auto, using(reg_tables::proofs::Statements::ranges_of_registry))]
fn ranges_of<S: Reports + Loads>(
    alloc: Global,
    conn: &mut Connection<S>,
    name: &Name,
) -> Result<Vec<Range>, Fault>
    requires { IsKeeping (state S.Store conn.old) }
    ensures { Looks (state S.Store conn.old) (state S.Store conn.new) result
        (λ w ranges. (t : Table) → get w.registries name.now ≡ Some t
        → ranges.items ≡ t.ranges) }
{
    let rows = list::<S, RegistryRange>(alloc, conn, SELECT_RANGES_OF, &[name_value(name)])?;
    Ok(without_registry(alloc, rows)?)
}

/// The names of registries.
fn names_of(alloc: Global, registries: &[Registry]) -> Result<Vec<Name>, AllocError>
    ensures { IfOk result (λ names. names.items ≡ map (λ r. r.name) registries.now) }
{
    registries
        .iter()
        .map(|registry| registry.name)
        .collect(alloc)
}

/// The ranges without the name of their registry.
fn without_registry(alloc: Global, rows: Vec<RegistryRange>) -> Result<Vec<Range>, AllocError>
    ensures { IfOk result (λ ranges. ranges.items ≡ map (λ row. row.range) rows.items) }
{
    rows.into_iter().map(|row| row.range).collect(alloc)
}
