//! Statements that write.
ghost use Rattle.std.specs.Prelude.{◌≡◌, IfErr};
ghost use Rattle.sqlite.specs.Held.{state};
ghost use Rattle.sqlite.specs.Values.{bound};
ghost use Rattle.reg_tables.specs.Connection.{RunsInside};
ghost use Rattle.reg_statements.specs.Reading.{IsFault, fault_of};

use reg_keeper::keeper::Fault;
use reg_tables::reports::Reports;
use reg_tables::write::run;
use sqlite::types::ValueRef;
use sqlite::{Error, ErrorCode, Transaction};

/// What an error of the store is to an office.
pub fn fault(error: &Error) -> Fault
    ensures { result ≡ fault_of error.now }
{
    match error {
        Error::SqliteFailure(ErrorCode::OutOfMemory) => Fault::Memory,
        _ => Fault::Store,
    }
}

/// Runs a statement inside a transaction, and tells how many rows it wrote or took away. A
/// fault tells an error that the library reported.
pub fn write<S: Reports>(
    tx: &mut Transaction<'_, S>,
    sql: &str,
    params: &[ValueRef<'_>],
) -> Result<usize, Fault>
    ensures same_reference { tx.new.conn.ghost_name ≡ tx.old.conn.ghost_name }
    ensures runs { RunsInside sql.now (bound params.now) (state S.Store tx.old.conn.now)
        (state S.Store tx.new.conn.now) result }
    ensures fault { IfErr result (IsFault S.Reported (state S.Store tx.old.conn.now)
        (state S.Store tx.new.conn.now)) }
{
    match run(tx, sql, params) {
        Ok(count) => Ok(count),
        Err(error) => Err(fault(&error)),
    }
}
