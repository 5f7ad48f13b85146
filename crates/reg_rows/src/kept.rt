//! The rows of any table of an office: found and listed by a test, added, put at their keys,
//! changed and taken away.
ghost use Rattle.std.specs.Prelude.{◌≡◌, Bool, true, IfErr, IfOk};
ghost use Rattle.sqlite.specs.Held.{state};
ghost use Rattle.sqlite.specs.Values.{bound};
ghost use Rattle.reg_tables.specs.Kinds.{IsQuery, WritesRows};
ghost use Rattle.reg_statements.specs.Defined.{InsertsRows, Chooses, IsDefined, IsFound};
ghost use Rattle.reg_statements.specs.Defined.{HasFreeKey, KeepsTies, Puts, TakesRows, rows_where};
ghost use Rattle.reg_statements.specs.Defined.{with_row, without_row};
ghost use Rattle.reg_statements.specs.Loading.{IsAscending, ReadsInOrder, ReadsOne};
ghost use Rattle.reg_statements.specs.Parts.{TableDef};
ghost use Rattle.reg_statements.specs.Reading.{GivesTooMany, IsFault, IsMet, IsNotRead};
ghost use Rattle.reg_rows.specs.Calls.{IsKeeping, LooksIn, StepsIn};
ghost use Rattle.reg_rows.specs.Changing.{ChangesRows};

use reg_keeper::keeper::Fault;
use reg_records::record::Keyed;
use reg_statements::loads::Loads;
use reg_statements::select::{all, one};
use reg_statements::write::write;
use reg_tables::reports::Reports;
use sqlite::types::ValueRef;
use sqlite::{Connection, Transaction};
use std::alloc::Global;

/// A row of a table of an office.
pub trait Kept: Keyed {
    /// What its key is, and what a key has.
    ghost Key: { Type 0 };

    ghost Value: { Type 0 };

    /// The definition of its table.
    ghost table: { TableDef Self Key Value };

    /// The definition is right, and rows are read and compared by it.
    ghost defined: { IsDefined table };

    ghost reads: { Self.of ≡ table.read };

    ghost compares: { Self.order ≡ (λ a b. table.key.order (table.pair a).0 (table.pair b).0) };
}

/// The one row whose key and value pass a test, if there is one.
pub fn find<S: Reports + Loads, T: Kept>(
    alloc: Global,
    conn: &mut Connection<S>,
    sql: &str,
    params: &[ValueRef<'_>],
) -> Result<Option<T>, Fault>
    requires keeping { IsKeeping (state S.Store conn.old) }
    requires plain { IsQuery sql.now }
    ensures row { LooksIn (state S.Store conn.old) (state S.Store conn.new) result
        (λ p found. IsFound T.table sql.now (bound params.now) found p) }
    ensures fault { IfErr result (IsNotRead (IsMet S.Reported S.Unloaded
        (GivesTooMany S.Store sql.now (bound params.now) conn.new)) sql.now (bound params.now)
        (state S.Store conn.old) (state S.Store conn.new) (ReadsOne T.of)) }
{
    one::<S, T>(alloc, conn, sql, params)
}

/// The rows whose keys and values pass a test, in the order of their keys.
pub fn list<S: Reports + Loads, T: Kept>(
    alloc: Global,
    conn: &mut Connection<S>,
    sql: &str,
    params: &[ValueRef<'_>],
) -> Result<Vec<T>, Fault>
    requires keeping { IsKeeping (state S.Store conn.old) }
    requires plain { IsQuery sql.now }
    ensures ascending { IfOk result (λ rows. IsAscending T.order rows.items) }
    ensures rows { LooksIn (state S.Store conn.old) (state S.Store conn.new) result
        (λ p rows. (test : T.Key → T.Value → Bool) → Chooses T.table sql.now (bound params.now) test
        → rows.items ≡ rows_where T.table test p) }
    ensures fault { IfErr result (IsNotRead (IsMet S.Reported S.Unloaded
        (GivesTooMany S.Store sql.now (bound params.now) conn.new)) sql.now (bound params.now)
        (state S.Store conn.old) (state S.Store conn.new) (ReadsInOrder T.of T.order)) }
{
    all::<S, T>(alloc, conn, sql, params)
}

/// Adds a row at a key that has none. The values are those that are written for it.
pub fn add<S: Reports, T: Kept>(
    tx: &mut Transaction<'_, S>,
    sql: &str,
    values: &[ValueRef<'_>],
) -> Result<(), Fault>
    requires { InsertsRows T.table sql.now }
    ensures same_reference { tx.new.conn.ghost_name ≡ tx.old.conn.ghost_name }
    ensures steps { (row : T) → T.table.form row ≡ true → bound values.now ≡ T.table.values row
        → StepsIn (state S.Store tx.old.conn.now) (state S.Store tx.new.conn.now) result
        (λ p. HasFreeKey T.table row p × KeepsTies (with_row T.table row) p) (with_row T.table row) }
    ensures fault { IfErr result (IsFault S.Reported (state S.Store tx.old.conn.now)
        (state S.Store tx.new.conn.now)) }
{
    write(tx, sql, values)?;
    Ok(())
}

/// Puts a row in the place of the one with its key, or adds it where there is none. The values are
/// those that are written for it.
pub fn put<S: Reports, T: Kept>(
    tx: &mut Transaction<'_, S>,
    sql: &str,
    values: &[ValueRef<'_>],
) -> Result<(), Fault>
    requires { Puts T.table sql.now }
    ensures same_reference { tx.new.conn.ghost_name ≡ tx.old.conn.ghost_name }
    ensures steps { (row : T) → T.table.form row ≡ true → bound values.now ≡ T.table.values row
        → StepsIn (state S.Store tx.old.conn.now) (state S.Store tx.new.conn.now) result
        (KeepsTies (with_row T.table row)) (with_row T.table row) }
    ensures fault { IfErr result (IsFault S.Reported (state S.Store tx.old.conn.now)
        (state S.Store tx.new.conn.now)) }
{
    write(tx, sql, values)?;
    Ok(())
}

/// Changes the rows whose keys and values pass a test: of each some columns, and by these its value.
pub fn change<S: Reports, T: Kept>(
    tx: &mut Transaction<'_, S>,
    sql: &str,
    params: &[ValueRef<'_>],
) -> Result<(), Fault>
    requires { WritesRows sql.now }
    ensures same_reference { tx.new.conn.ghost_name ≡ tx.old.conn.ghost_name }
    ensures steps { ChangesRows T.table sql.now (bound params.now) (state S.Store tx.old.conn.now)
        (state S.Store tx.new.conn.now) result }
    ensures fault { IfErr result (IsFault S.Reported (state S.Store tx.old.conn.now)
        (state S.Store tx.new.conn.now)) }
{
    write(tx, sql, params)?;
    Ok(())
}

/// Takes the row of a key away, if there is one.
pub fn take<S: Reports, T: Kept>(
    tx: &mut Transaction<'_, S>,
    sql: &str,
    key: &[ValueRef<'_>],
) -> Result<(), Fault>
    requires { TakesRows T.table sql.now }
    ensures same_reference { tx.new.conn.ghost_name ≡ tx.old.conn.ghost_name }
    ensures steps { (k : T.Key) → bound key.now ≡ T.table.key.cells k
        → StepsIn (state S.Store tx.old.conn.now) (state S.Store tx.new.conn.now) result
        (KeepsTies (without_row T.table k)) (without_row T.table k) }
    ensures fault { IfErr result (IsFault S.Reported (state S.Store tx.old.conn.now)
        (state S.Store tx.new.conn.now)) }
{
    write(tx, sql, key)?;
    Ok(())
}
