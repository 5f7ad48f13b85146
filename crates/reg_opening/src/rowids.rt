//! The rowids of the rows of the tables.
ghost use Rattle.std.specs.Prelude.{◌≡◌, ◌⊎◌, ℕ, List, [], IfErr, IfOk, map};
ghost use Rattle.std.specs.List.{AllByRecursion};
ghost use Rattle.std.specs.Ordering.{int_cmp};
ghost use Rattle.sqlite.specs.Held.{state};
ghost use Rattle.sqlite.specs.Term.{Term};
ghost use Rattle.sqlite_value.specs.declared.keys.Key.{Key};
ghost use Rattle.reg_tables.specs.Connection.{Endures, IsIdle, Stays, Works};
ghost use Rattle.reg_tables.specs.Editing.{AreKeyed};
ghost use Rattle.reg_tables.specs.Kinds.{IsQuery};
ghost use Rattle.reg_tables.specs.Selecting.{BeginsWith};
ghost use Rattle.reg_statements.specs.Loading.{ReadsInOrder};
ghost use Rattle.reg_opening.specs.Causes.{HasCause};
ghost use Rattle.reg_opening.specs.Rowids.{AreOrderedKeyed, IsAmong, KeysEach, SelectsRowids, rowid_in};
ghost use Rattle.reg_opening.specs.Unordered.{AreRowidsUnordered};

use crate::opens::Opens;
use reg_keeper::keeper::Fault;
use reg_records::column::int;
use reg_records::record::{Keyed, Record};
use reg_statements::select::all;
use sqlite::{Connection, Row};
use std::alloc::{AllocError, Global};
use std::cmp::Ordering;
use std::marker::Model;

/// The rowid of a row.
#[derive(Clone, Copy, PartialEq, Eq)]
struct Rowid {
    number: i64,
}

impl Model for Rowid {
    ghost use Rattle.std.specs.Prelude.{ℤ};

    ghost Value = { ℤ };

    ghost view = { λ rowid. rowid.number };

    ghost inverse = { λ number. record { number = number } };
}

impl Record for Rowid {
    ghost of = { rowid_in };

    fn read(_: Global, row: &Row) -> Result<Option<Self>, AllocError> {
        Ok(int(row, 0).map(Rowid::new))
    }
}

impl Keyed for Rowid {
    ghost order = { int_cmp };

    fn compare(&self, other: &Self) -> Ordering {
        self.number.cmp(&other.number)
    }
}

impl Rowid {
    fn new(number: i64) -> Self
        ensures { result ≡ number }
    {
        Rowid { number }
    }
}

/// Checks that the rowids of a table that a query gives in their order rise; if not, it is a fault
/// of the store.
fn check_table<S: Opens>(alloc: Global, conn: &mut Connection<S>, sql: &str) -> Result<(), Fault>
    requires idle { IsIdle (state S.Store conn.old) }
    requires plain { IsQuery sql.now }
    ensures idle { IsIdle (state S.Store conn.new) }
    ensures endures { Endures (state S.Store conn.old) (state S.Store conn.new) }
    ensures stays { Stays (state S.Store conn.old) (state S.Store conn.new) }
    ensures keyed { Works (state S.Store conn.new)
        → BeginsWith 4 (state S.Store conn.old).now.schema → IfOk result (λ _. (t : ℕ)
        (order : List (Term × Key)) → SelectsRowids sql.now t order
        → AreKeyed ((state S.Store conn.old).now.trees t)) }
    ensures fault { IfErr result (HasCause S.Reported (S.Unloaded ⊎ S.Ungrown)
        (λ text rows. (text ≡ sql.now) × ¬ ReadsInOrder rowid_in int_cmp rows) S.Store
        (state S.Store conn.old) (state S.Store conn.new)) }
{
    all::<S, Rowid>(alloc, conn, sql, &[])?;
    Ok(())
}

/// The queries of the rowids of the tables whose rows are read in another order than theirs.
const QUERIES: [&str; 3] = [
    "SELECT rowid FROM office ORDER BY rowid",
    "SELECT rowid FROM registries ORDER BY rowid",
    "SELECT rowid FROM ranges ORDER BY rowid",
];

/// Checks those of tables, one after the other.
fn check_each<S: Opens>(
    alloc: Global,
    conn: &mut Connection<S>,
    mut texts: &[&str],
) -> Result<(), Fault>
    requires idle { IsIdle (state S.Store conn.old) }
    requires plain { AllByRecursion IsQuery (map (λ text. text.now) texts.now) }
    ensures idle { IsIdle (state S.Store conn.new) }
    ensures endures { Endures (state S.Store conn.old) (state S.Store conn.new) }
    ensures stays { Stays (state S.Store conn.old) (state S.Store conn.new) }
    ensures keyed { Works (state S.Store conn.new)
        → BeginsWith 4 (state S.Store conn.old).now.schema
        → IfOk result (λ _. KeysEach (map (λ text. text.now) texts.entry.now)
        (state S.Store conn.old).now.trees) }
    ensures fault { IfErr result (HasCause S.Reported (S.Unloaded ⊎ S.Ungrown)
        (λ text rows. IsAmong (map (λ text. text.now) texts.entry.now) text
        × ¬ ReadsInOrder rowid_in int_cmp rows) S.Store
        (state S.Store conn.old) (state S.Store conn.new)) }
{
    'texts: while let [text, more @ ..] = texts {
        check_table(alloc, conn, text)?;
        texts = more;
    }
    Ok(())
}

/// Checks that the rowids rise of the version, the registries and their ranges; if not, it is a fault
/// of the store. Those of the other tables are read with their rows.
pub fn check_rowids<S: Opens>(alloc: Global, conn: &mut Connection<S>) -> Result<(), Fault>
    requires { IsIdle (state S.Store conn.old) }
    ensures idle { IsIdle (state S.Store conn.new) }
    ensures endures { Endures (state S.Store conn.old) (state S.Store conn.new) }
    ensures stays { Stays (state S.Store conn.old) (state S.Store conn.new) }
    ensures keyed { Works (state S.Store conn.new)
        → BeginsWith 4 (state S.Store conn.old).now.schema
        → IfOk result (λ _. AreOrderedKeyed (state S.Store conn.old).now.trees) }
    ensures fault { IfErr result (HasCause S.Reported (S.Unloaded ⊎ S.Ungrown) AreRowidsUnordered
        S.Store (state S.Store conn.old) (state S.Store conn.new)) }
{
    check_each(alloc, conn, &QUERIES)
}
