//! The rows of a table, fed to an audit.
ghost use Rattle.std.specs.Prelude.{◌≡◌, ◌⊎◌, ℕ, List, [], IfErr, IfOk, IsTrue, OnErr, map};
ghost use Rattle.std.specs.FinMap.{FinMap};
ghost use Rattle.sqlite.specs.Held.{state};
ghost use Rattle.sqlite.specs.Order.{Row as SqlRow, column};
ghost use Rattle.sqlite.specs.Tree.{rowid};
ghost use Rattle.reg_maps.specs.RowMaps.{held_in};
ghost use Rattle.reg_core.specs.World.{World};
ghost use Rattle.reg_opening.specs.Audits.{knows_free};
ghost use Rattle.reg_opening.specs.declared.row.Row.{Row as AuditRow};
ghost use Rattle.reg_tables.specs.Connection.{Endures, IsIdle, Stays, Works};
ghost use Rattle.reg_tables.specs.Kinds.{IsQuery};
ghost use Rattle.reg_tables.specs.Selecting.{shows, stored};
ghost use Rattle.reg_statements.specs.Defined.{IsDefined};
ghost use Rattle.reg_statements.specs.Parts.{TableDef};
ghost use Rattle.reg_statements.specs.Tables.{Tables};
ghost use Rattle.reg_opening.specs.Causes.{AreUnrisen, HasCause};
ghost use Rattle.reg_opening.specs.FedRows.{IsPlaced};
ghost use Rattle.reg_opening.specs.Feeding.{FeedsPart, FeedsRows, FeedsShown, MakesPart, IsTiedTable};
ghost use Rattle.reg_opening.specs.Numbered.{ShowsNumbered, numbered_columns};
ghost use Rattle.reg_opening.specs.Unordered.{IsUnnumbered};

use crate::audit::Audit;
use crate::feeder::Feeder;
use crate::flaw::RowFlaw;
use crate::grows::Grows;
use crate::numbered::Numbered;
use crate::opens::Opens;
use crate::row::Row;
use reg_keeper::keeper::Fault;
use reg_records::record::Record;
use reg_statements::read::each;
use reg_tables::version::Version;
use sqlite::Connection;
use std::alloc::{AllocError, Global};

/// What an audit can be fed as a row.
pub trait Fed: Drop {
    /// The row of the value.
    ghost row_of: { Self → AuditRow };

    /// The row of the value.
    fn row(self) -> Row
        ensures { result ≡ row_of self };
}

/// A row of a table that is a part of the office by itself.
pub trait FedRow: Record + Fed {
    /// What its key is, and what a key has.
    ghost Key: { Type 0 };

    ghost Value: { Type 0 };

    /// The definition of its table.
    ghost table: { TableDef Self Key Value };

    /// The world with what the rows of the table add to it.
    ghost put: { World → FinMap table.key.order Value → World };

    /// What the world has before any of them is fed, and what a key owes to rows of other tables.
    ghost Before: { Tables → World → Type 0 };

    ghost IsTied: { Tables → Key → Type 0 };

    /// The query of all rows of the table, each with its rowid behind its columns.
    fn all() -> &'static str
        ensures { ShowsNumbered table result.now };

    /// How many columns the table has, and how many tables stand before it.
    fn width() -> usize
        ensures { result ≡ table.width };

    fn slot() -> usize
        ensures { result ≡ table.slot };

    /// The definition is right, rows are read by it from what the query shows of them, behind which
    /// the rowid stands; a version that has the table has its tree; and they are that part.
    ghost defined: { IsDefined table };

    ghost reads: { (row : SqlRow) → Self.of (shows (numbered_columns table.width) [] row)
        ≡ table.read (stored table.width row) };

    ghost behind: { (row : SqlRow)
        → column (shows (numbered_columns table.width) [] row) table.width ≡ rowid row };

    ghost placed: { IsPlaced table };

    ghost fed: { (t : Tables) → MakesPart table.pair Self.row_of put (Before t) (IsTied t) };
}

/// How the tables of an office are read.
#[derive(Clone, Copy)]
pub struct Reading {
    pub alloc: Global,
    /// Whose tables they are.
    pub version: Version,
}

/// A part of an office, whose rows an audit is fed.
pub trait Part {
    /// What the world has before any of the rows is fed.
    ghost Before: { Tables → World → Type 0 };

    /// That the rows are the part.
    ghost IsHeld: { Tables → Type 0 };

    /// The world with the part.
    ghost filled: { Tables → World → World };

    /// That a query of the part, by its text, shows rows in another order than that in which it has to.
    ghost Misordered: { List ℕ → List SqlRow → Type 0 };

    /// Feeds the rows to an audit, where each has its form, and tells whether each has.
    fn feed<S: Opens>(
        reading: Reading,
        conn: &mut Connection<S>,
        feeder: &mut Feeder,
    ) -> Result<bool, Fault>
        requires { IsIdle (state S.Store conn.old) }
        ensures feeds { FeedsPart reading.version Before IsHeld filled (state S.Store conn.old)
            (state S.Store conn.new) feeder.old.audit feeder.new.audit result }
        ensures fault { IfErr result (HasCause S.Reported (S.Unloaded ⊎ S.Ungrown) Misordered S.Store
            (state S.Store conn.old) (state S.Store conn.new)) };
}

/// Feeds values to an audit, from the last to the first.
pub fn feed_all<S: Grows, T: Fed>(audit: &mut Audit, mut values: Vec<T>) -> Result<(), AllocError>
    ensures feeds { IfOk result
        (λ _. FeedsRows audit.old audit.new (map T.row_of values.items)) }
    ensures refused { OnErr result S.Ungrown }
{
    'values: while let Some(value) = values.pop() {
        audit.feed::<S>(value.row())?;
    }
    Ok(())
}

/// Feeds the rows of a query to an audit as they are read, and tells whether each has its form. Rows
/// whose rowids do not rise are a fault of the store.
fn feed_table<S: Opens, T: FedRow>(
    alloc: Global,
    conn: &mut Connection<S>,
    feeder: &mut Feeder,
    sql: &str,
) -> Result<bool, Fault>
    requires idle { IsIdle (state S.Store conn.old) }
    requires plain { IsQuery sql.now }
    ensures idle { IsIdle (state S.Store conn.new) }
    ensures stays { Stays (state S.Store conn.old) (state S.Store conn.new) }
    ensures endures { Endures (state S.Store conn.old) (state S.Store conn.new) }
    ensures rows { Works (state S.Store conn.new) → IfOk result (FeedsShown T.of T.table.width T.row_of
        sql.now (state S.Store conn.old) (state S.Store conn.new) feeder.old.audit feeder.new.audit) }
    ensures free { IfOk result (λ _. IsTrue (knows_free feeder.old.audit)
        → IsTrue (knows_free feeder.new.audit)) }
    ensures fault { IfErr result (HasCause S.Reported (S.Unloaded ⊎ S.Ungrown)
        (λ text rows. (text ≡ sql.now) × AreUnrisen T.table.width rows) S.Store
        (state S.Store conn.old) (state S.Store conn.new)) }
{
    feeder.begin();
    if !each::<S, Numbered<T>, Feeder>(alloc, conn, sql, &[], feeder)? {
        return Ok(false);
    }
    if feeder.has_risen() {
        Ok(true)
    } else {
        Err(Fault::Store)
    }
}

/// The rows of a table. A table that the version lacks has none; rows whose rowids do not rise are a
/// fault of the store.
impl<T: FedRow> Part for Vec<T> {
    ghost Before = { T.Before };

    ghost IsHeld = { λ t. IsTiedTable T.table.key.order T.table.at (T.table.rows t) (T.IsTied t) };

    ghost filled = { λ t w. T.put w (held_in T.table.at (T.table.rows t)) };

    ghost Misordered = { IsUnnumbered T.table };

    fn feed<S: Opens>(
        reading: Reading,
        conn: &mut Connection<S>,
        feeder: &mut Feeder,
    ) -> Result<bool, Fault> {
        if reading.version.tables() <= T::slot() {
            return Ok(true);
        }
        let is_whole = feed_table::<S, T>(reading.alloc, conn, feeder, T::all())?;
        feeder.end(T::slot(), is_whole, RowFlaw::Unread(T::slot()));
        Ok(is_whole)
    }
}
