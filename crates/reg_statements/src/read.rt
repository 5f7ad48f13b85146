//! The rows of a query as values.
ghost use Rattle.std.specs.Prelude.{◌≡◌, ◌⊎◌, ◌++◌, false, List, [], ◌∷◌, IfErr, IfOk, OnErr};
ghost use Rattle.sqlite.specs.Held.{state};
ghost use Rattle.sqlite.specs.Order.{Row as SqlRow};
ghost use Rattle.sqlite.specs.State.{HasCleanDisk, IsUnchanged, IsRolledBack, Shown};
ghost use Rattle.sqlite.specs.Values.{bound};
ghost use Rattle.reg_tables.specs.Connection.{Endures, IsIdle, Stays, Works};
ghost use Rattle.reg_tables.specs.Faulting.{IsExcused};
ghost use Rattle.reg_tables.specs.Kinds.{IsQuery};
ghost use Rattle.reg_tables.specs.Lasting.{Lasts};
ghost use Rattle.reg_statements.specs.Reading.{AnswersBy, AreRead, AreTaken, GivesTooMany, IsFault, IsMet};

use crate::loads::Loads;
use crate::write::fault;
use reg_keeper::keeper::Fault;
use reg_records::record::Record;
use reg_tables::reports::Reports;
use sqlite::types::ValueRef;
use sqlite::{Connection, Error, ErrorCode, Row};
use std::alloc::{AllocError, Global};

/// What takes values, one after the other. What `S` is tells where memory was refused.
pub trait Sink<T, S> {
    /// What it is before it takes a value, the value, and what it is then.
    ghost Takes: { Self → T → Self → Type 0 };

    /// What stays so of it, whatever values it takes.
    ghost Whole: { Self → Type 0 };

    /// Memory was refused where it was to take a value.
    ghost Untaken: { Type 0 };

    /// Takes a value.
    fn take(&mut self, value: T) -> Result<(), AllocError>
        ensures taken { IfOk result (λ _. Takes self.old value self.new) }
        ensures whole { IfOk result (λ _. Whole self.old → Whole self.new) }
        ensures refused { OnErr result Untaken };
}

impl<T: Record, S: Loads> Sink<T, S> for Vec<T> {
    ghost Takes = { λ old value new. new.items ≡ old.items ++ value ∷ [] };

    ghost Whole = { λ _. Unit {0} };

    ghost Untaken = { S.Unloaded };

    fn take(&mut self, value: T) -> Result<(), AllocError> {
        S::list_row(self, value)
    }
}

/// Hands on one row more, where it has its form and all before it had theirs.
fn take_row<S: Loads, T: Record, K: Sink<T, S>>(
    alloc: Global,
    sink: &mut K,
    read: bool,
    row: &Row,
) -> Result<bool, AllocError>
    ensures taken { IfOk result (λ more. (start : K) (rows : List SqlRow)
        → AreTaken T.of K.Takes start rows sink.old read
        → AreTaken T.of K.Takes start (rows ++ row.now ∷ []) sink.new more) }
    ensures whole { IfOk result (λ _. K.Whole sink.old → K.Whole sink.new) }
    ensures refused { OnErr result (S.Unloaded ⊎ K.Untaken) }
{
    if !read {
        return Ok(false);
    }
    match S::read_row::<T>(alloc, row)? {
        Some(value) => {
            sink.take(value)?;
            Ok(true)
        }
        None => Ok(false),
    }
}

/// Hands on the rows of a query, one after the other, where each has its form.
fn take_rows<S: Reports + Loads, T: Record, K: Sink<T, S>>(
    alloc: Global,
    conn: &mut Connection<S>,
    sql: &str,
    params: &[ValueRef<'_>],
    sink: &mut K,
) -> Result<bool, Error>
    requires idle { IsIdle (state S.Store conn.old) }
    requires plain { IsQuery sql.now }
    ensures mode { (state S.Store conn.new).in_transaction ≡ false }
    ensures lasts { Lasts (state S.Store conn.old) (state S.Store conn.new) }
    ensures rests { HasCleanDisk (state S.Store conn.new)
        → IsUnchanged (state S.Store conn.old) (state S.Store conn.new)
        ⊎ IsRolledBack (state S.Store conn.old) (state S.Store conn.new) }
    ensures rows { HasCleanDisk (state S.Store conn.new) → IfOk result (λ read.
        AnswersBy sql.now (bound params.now) (state S.Store conn.old) (state S.Store conn.new)
        (λ rows. AreTaken T.of K.Takes sink.old rows sink.new read)) }
    ensures whole { IfOk result (λ _. K.Whole sink.old → K.Whole sink.new) }
    ensures cause { IfErr result (IsExcused (state S.Store conn.old) (state S.Store conn.new)) }
    ensures met { IfErr result (IsMet S.Reported (S.Unloaded ⊎ K.Untaken)
        (GivesTooMany S.Store sql.now (bound params.now) conn.new)) }
{
    let mut read = true;
    let mut rows = match conn.query(sql, params) {
        Ok(rows) => rows,
        Err(error) => return Err(S::heard(error)),
    };
    'rows: for _at in 0..u64::MAX {
        let row = match rows.next() {
            Ok(Some(row)) => row,
            Ok(None) => return Ok(read),
            Err(error) => return Err(S::heard(error)),
        };
        read = take_row::<S, T, K>(alloc, sink, read, row)?;
    }
    Err(Error::SqliteFailure(ErrorCode::OperationInterrupted))
}

/// Hands on the rows of a query, one after the other, where each has its form, and tells whether
/// each has. Rows that come before one that has not are handed on too. A fault is what the library's
/// error is: want of memory is `Memory`, and any other `Store`.
pub fn each<S: Reports + Loads, T: Record, K: Sink<T, S>>(
    alloc: Global,
    conn: &mut Connection<S>,
    sql: &str,
    params: &[ValueRef<'_>],
    sink: &mut K,
) -> Result<bool, Fault>
    requires idle { IsIdle (state S.Store conn.old) }
    requires plain { IsQuery sql.now }
    ensures idle { IsIdle (state S.Store conn.new) }
    ensures stays { Stays (state S.Store conn.old) (state S.Store conn.new) }
    ensures endures { Endures (state S.Store conn.old) (state S.Store conn.new) }
    ensures rows { Works (state S.Store conn.new) → IfOk result (λ read. (rows : _)
        × Shown sql.now (bound params.now) (state S.Store conn.old) (state S.Store conn.new) rows
        × AreTaken T.of K.Takes sink.old rows sink.new read) }
    ensures whole { IfOk result (λ _. K.Whole sink.old → K.Whole sink.new) }
    ensures fault { IfErr result (IsFault (IsMet S.Reported (S.Unloaded ⊎ K.Untaken)
        (GivesTooMany S.Store sql.now (bound params.now) conn.new))
        (state S.Store conn.old) (state S.Store conn.new)) }
{
    match take_rows::<S, T, K>(alloc, conn, sql, params, sink) {
        Ok(read) => Ok(read),
        Err(error) => Err(fault(&error)),
    }
}

/// The rows of a query, one at a time, where each has its form. A fault is what the library's error
/// is: want of memory is `Memory`, and any other `Store`.
pub fn load<S: Reports + Loads, T: Record>(
    alloc: Global,
    conn: &mut Connection<S>,
    sql: &str,
    params: &[ValueRef<'_>],
) -> Result<Option<Vec<T>>, Fault>
    requires idle { IsIdle (state S.Store conn.old) }
    requires plain { IsQuery sql.now }
    ensures idle { IsIdle (state S.Store conn.new) }
    ensures stays { Stays (state S.Store conn.old) (state S.Store conn.new) }
    ensures endures { Endures (state S.Store conn.old) (state S.Store conn.new) }
    ensures rows { Works (state S.Store conn.new) → IfOk result (λ o. (rows : _)
        × Shown sql.now (bound params.now) (state S.Store conn.old) (state S.Store conn.new) rows
        × AreRead T.of rows o) }
    ensures fault { IfErr result (IsFault (IsMet S.Reported S.Unloaded
        (GivesTooMany S.Store sql.now (bound params.now) conn.new))
        (state S.Store conn.old) (state S.Store conn.new)) }
{
    let mut all = Vec::new(alloc);
    if each::<S, T, Vec<T>>(alloc, conn, sql, params, &mut all)? {
        Ok(Some(all))
    } else {
        Ok(None)
    }
}
