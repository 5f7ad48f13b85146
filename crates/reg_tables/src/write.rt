//! Statements that write, inside a transaction.

ghost use Rattle.std.specs.Prelude.{◌≡◌, ◌≤◌, IfErr};
ghost use Rattle.sqlite_trees.specs.View.{doubt};
ghost use Rattle.sqlite.specs.Held.{state};
ghost use Rattle.sqlite.specs.Values.{bound};
ghost use Rattle.reg_tables.specs.Connection.{RunsInside};
ghost use Rattle.reg_tables.specs.Faulting.{IsExcused};

use crate::reports::Reports;
use sqlite::types::ValueRef;
use sqlite::{Error, Transaction};

/// Runs a statement inside a transaction, and tells how many rows it wrote or took away. An error is one that
/// the library reported.
pub fn run<S: Reports>(
    tx: &mut Transaction<'_, S>,
    sql: &str,
    params: &[ValueRef<'_>],
) -> Result<usize, Error>
    ensures same_reference { tx.new.conn.ghost_name ≡ tx.old.conn.ghost_name }
    ensures clean { doubt (state S.Store tx.old.conn.now).is_clean
        ≤ doubt (state S.Store tx.new.conn.now).is_clean }
    ensures runs { RunsInside sql.now (bound params.now) (state S.Store tx.old.conn.now)
        (state S.Store tx.new.conn.now) result }
    ensures cause { IfErr result (IsExcused (state S.Store tx.old.conn.now)
        (state S.Store tx.new.conn.now)) }
    ensures reported { IfErr result S.Reported }
{
    S::execute(tx, sql, params)
}
