//! Queries over the tables of an office.
ghost use Rattle.std.specs.Prelude.{◌≡◌, ◌↔◌, IfErr, IfOk, IsTrue, MatchResult, option_to_list};
ghost use Rattle.sqlite.specs.Held.{state};
ghost use Rattle.sqlite.specs.State.{Shown};
ghost use Rattle.sqlite.specs.Values.{bound};
ghost use Rattle.reg_tables.specs.Connection.{Endures, IsIdle, Stays, Works};
ghost use Rattle.reg_tables.specs.Kinds.{IsQuery};
ghost use Rattle.reg_keeper.specs.declared.keeper.Fault.TheVariants as faults;
ghost use Rattle.reg_statements.specs.Loading.{IsAscending, ReadAs, ReadsInOrder, ReadsOne};
ghost use Rattle.reg_statements.specs.Reading.{GivesTooMany, IsMet, IsNotRead};

use crate::loads::Loads;
use crate::read::load;
use reg_keeper::keeper::Fault;
use reg_records::record::{Keyed, Record};
use reg_tables::reports::Reports;
use sqlite::Connection;
use sqlite::types::ValueRef;
use std::alloc::Global;
use std::cmp::Ordering;

/// The row of a query that has at most one. A row without its form, and a second one, are a fault
/// of the store.
pub fn one<S: Reports + Loads, T: Record>(
    alloc: Global,
    conn: &mut Connection<S>,
    sql: &str,
    params: &[ValueRef<'_>],
) -> Result<Option<T>, Fault>
    requires idle { IsIdle (state S.Store conn.old) }
    requires plain { IsQuery sql.now }
    ensures idle { IsIdle (state S.Store conn.new) }
    ensures endures { Endures (state S.Store conn.old) (state S.Store conn.new) }
    ensures stays { Stays (state S.Store conn.old) (state S.Store conn.new) }
    ensures row { Works (state S.Store conn.new) → IfOk result (λ o. (rows : _)
        × Shown sql.now (bound params.now) (state S.Store conn.old) (state S.Store conn.new) rows
        × ReadAs T.of rows (option_to_list o)) }
    ensures fault { IfErr result (IsNotRead (IsMet S.Reported S.Unloaded
        (GivesTooMany S.Store sql.now (bound params.now) conn.new)) sql.now (bound params.now)
        (state S.Store conn.old) (state S.Store conn.new) (ReadsOne T.of)) }
{
    let Some(mut rows) = load(alloc, conn, sql, params)? else {
        return Err(Fault::Store);
    };
    let row = rows.pop();
    if rows.is_empty() {
        Ok(row)
    } else {
        Err(Fault::Store)
    }
}

/// The rows of a query, each before the next in the order of their keys. A row without its form,
/// and one that does not come after the row before it, are a fault of the store.
pub fn all<S: Reports + Loads, T: Keyed>(
    alloc: Global,
    conn: &mut Connection<S>,
    sql: &str,
    params: &[ValueRef<'_>],
) -> Result<Vec<T>, Fault>
    requires idle { IsIdle (state S.Store conn.old) }
    requires plain { IsQuery sql.now }
    ensures idle { IsIdle (state S.Store conn.new) }
    ensures endures { Endures (state S.Store conn.old) (state S.Store conn.new) }
    ensures stays { Stays (state S.Store conn.old) (state S.Store conn.new) }
    ensures ascending { IfOk result (λ rows. IsAscending T.order rows.items) }
    ensures rows { Works (state S.Store conn.new) → IfOk result (λ all. (rows : _)
        × Shown sql.now (bound params.now) (state S.Store conn.old) (state S.Store conn.new) rows
        × ReadAs T.of rows all.items) }
    ensures fault { IfErr result (IsNotRead (IsMet S.Reported S.Unloaded
        (GivesTooMany S.Store sql.now (bound params.now) conn.new)) sql.now (bound params.now)
        (state S.Store conn.old) (state S.Store conn.new) (ReadsInOrder T.of T.order)) }
{
    match load(alloc, conn, sql, params)? {
        Some(rows) => in_order(rows),
        None => Err(Fault::Store),
    }
}

/// Rows that come each before the next. Others are a fault of the store.
fn in_order<T: Keyed>(rows: Vec<T>) -> Result<Vec<T>, Fault>
    ensures { MatchResult result (λ all. (all ≡ rows) × IsAscending T.order rows.items)
        (λ fault. (fault ≡ faults.Store) × ¬ IsAscending T.order rows.items) }
{
    if are_ascending(rows.as_slice()) {
        Ok(rows)
    } else {
        Err(Fault::Store)
    }
}

/// Whether each row comes before the next.
pub fn are_ascending<T: Keyed>(mut rows: &[T]) -> bool
    ensures { IsTrue result ↔ IsAscending T.order rows.entry.now }
{
    'rows: while let [row, more @ ..] = rows {
        let [next, ..] = more else {
            return true;
        };
        if row.compare(next) != Ordering::Less {
            return false;
        }
        rows = more;
    }
    true
}
