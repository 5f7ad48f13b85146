//! What the library reports of the statements that it runs.
ghost use Rattle.std.specs.Prelude.{◌≡◌, false, Err, IfErr, IsTrue};
ghost use Rattle.sqlite.specs.Held.{state};
ghost use Rattle.sqlite.specs.State.{ExecutesInside, HasCleanDisk, Survives};
ghost use Rattle.sqlite.specs.Values.{bound};

use sqlite::types::ValueRef;
use sqlite::{Alter, Error, ErrorCode, Transaction};

/// A store whose library tells which errors it reported. Over a type parameter nothing else tells that
/// an error was reported, so a clause that asks for it refuses an error that was made up.
pub trait Reports: Alter {
    ghost use Rattle.sqlite.specs.declared.error.Error.{Error as OfLibrary};

    /// The library reported this error of a statement.
    ghost Reported: { OfLibrary → Type 0 };

    /// An error that the library has just answered. To be called with nothing else.
    fn heard(error: Error) -> Error
        ensures same { result ≡ error }
        ensures reported { Reported result };

    /// Runs a statement inside a transaction, and tells how many rows it wrote or took away.
    fn execute(
        tx: &mut Transaction<'_, Self>,
        sql: &str,
        params: &[ValueRef<'_>],
    ) -> Result<usize, Error>
        ensures same_reference { tx.new.conn.ghost_name ≡ tx.old.conn.ghost_name }
        ensures ended { (state Self.Store tx.old.conn.now).in_transaction ≡ false
            → (result ≡ Err (Error.SqliteFailure ErrorCode.TransactionState))
            × (tx.new.conn.now ≡ tx.old.conn.now) }
        ensures runs { HasCleanDisk (state Self.Store tx.new.conn.now)
            → IsTrue (state Self.Store tx.old.conn.now).in_transaction
            → ExecutesInside 0 sql.now (bound params.now) (state Self.Store tx.old.conn.now)
            (state Self.Store tx.new.conn.now) result }
        ensures survives { Survives (state Self.Store tx.old.conn.now)
            (state Self.Store tx.new.conn.now) (λ _. ⊥) }
        ensures reported { IfErr result Reported };
}

/// Each store: the library reports what its own functions answer.
impl<S: Alter> Reports for S {
    ghost Reported = { λ _. Unit {0} };

    fn heard(error: Error) -> Error {
        error
    }

    fn execute(
        tx: &mut Transaction<'_, S>,
        sql: &str,
        params: &[ValueRef<'_>],
    ) -> Result<usize, Error> {
        tx.execute(sql, params)
    }
}
