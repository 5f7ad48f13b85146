//! The tables are made, all or none.

ghost use Rattle.std.specs.Prelude.{◌≡◌, ◌≢◌, [], drop, map, IfErr, IsTrue, OnOk, OnErr};
ghost use Rattle.sqlite.specs.Held.{state};
ghost use Rattle.sqlite.specs.State.{HasCleanDisk};
ghost use Rattle.reg_tables.specs.Schema.{office_schema, office_texts};
ghost use Rattle.reg_tables.specs.Connection.{IsIdle, WentOn, Works};
ghost use Rattle.reg_tables.specs.Faulting.{IsGivenUp};
ghost use Rattle.reg_tables.specs.Having.{GainsEach, GainsOne, GainsTables};
ghost use Rattle.reg_tables.specs.Inside.{GoesInside, StaysInside};
ghost use Rattle.reg_tables.specs.Making.{AddsVersion, Founds, IsBlank};
ghost use Rattle.reg_tables.specs.Making.{MakesEach, MakesOne, MarksOffice, no_schema};
ghost use Rattle.reg_tables.specs.Version.{table_count};

use crate::reports::Reports;
use crate::texts;
use crate::version::{NEWEST, Version};
use crate::write::run;
use sqlite::types::ValueRef;
use sqlite::{Connection, Error, Transaction};

/// The statements that make the tables, in the order in which the versions brought them.
const TABLES: [&str; 14] = [
    texts::MAKE_OFFICE,
    texts::MAKE_CAPS,
    texts::MAKE_REGISTRIES,
    texts::MAKE_RANGES,
    texts::MAKE_ENTRIES,
    texts::MAKE_REQUESTS,
    texts::MAKE_QUEUE,
    texts::MAKE_ADVICE,
    texts::MAKE_POOL,
    texts::MAKE_BLOCKS,
    texts::MAKE_HOLDS,
    texts::MAKE_MINUTES,
    texts::MAKE_AGENTS,
    texts::MAKE_JOURNAL,
];

/// Those of them that make the tables that a version lacks.
pub fn later_texts(from: Version) -> &'static [&'static str]
    ensures { map (λ text. text.now) result.now ≡ drop (table_count from) office_texts }
{
    &TABLES[from.tables()..]
}

/// Makes a table.
fn make<S: Reports>(tx: &mut Transaction<'_, S>, text: &str) -> Result<(), Error>
    ensures same_reference { tx.new.conn.ghost_name ≡ tx.old.conn.ghost_name }
    ensures inside { GoesInside (state S.Store tx.old.conn.now)
        (state S.Store tx.new.conn.now) result }
    ensures made { HasCleanDisk (state S.Store tx.new.conn.now)
        → OnOk result (MakesOne text.now (state S.Store tx.old.conn.now).now
        (state S.Store tx.new.conn.now).now) }
    ensures gained { HasCleanDisk (state S.Store tx.new.conn.now)
        → OnOk result (GainsOne text.now (state S.Store tx.old.conn.now).now.schema
        (state S.Store tx.new.conn.now).now.schema) }
    ensures reported { IfErr result S.Reported }
{
    run(tx, text, &[])?;
    Ok(())
}

/// Makes tables, one after the other.
pub fn make_each<S: Reports>(tx: &mut Transaction<'_, S>, mut texts: &[&str]) -> Result<(), Error>
    ensures same_reference { tx.new.conn.ghost_name ≡ tx.old.conn.ghost_name }
    ensures inside { StaysInside (state S.Store tx.old.conn.now) (state S.Store tx.new.conn.now) }
    ensures went { map (λ text. text.now) texts.entry.now ≢ []
        → HasCleanDisk (state S.Store tx.new.conn.now)
        → OnOk result (WentOn (state S.Store tx.old.conn.now) (state S.Store tx.new.conn.now)) }
    ensures made { HasCleanDisk (state S.Store tx.new.conn.now)
        → OnOk result (MakesEach (map (λ text. text.now) texts.entry.now)
        (state S.Store tx.old.conn.now).now (state S.Store tx.new.conn.now).now) }
    ensures gained { HasCleanDisk (state S.Store tx.new.conn.now)
        → OnOk result (GainsEach (map (λ text. text.now) texts.entry.now)
        (state S.Store tx.old.conn.now).now.schema (state S.Store tx.new.conn.now).now.schema) }
    ensures reported { IfErr result S.Reported }
{
    'texts: while let [text, more @ ..] = texts {
        make(tx, text)?;
        texts = more;
    }
    Ok(())
}

/// Makes all tables.
fn make_all<S: Reports>(tx: &mut Transaction<'_, S>) -> Result<(), Error>
    ensures same_reference { tx.new.conn.ghost_name ≡ tx.old.conn.ghost_name }
    ensures inside { GoesInside (state S.Store tx.old.conn.now)
        (state S.Store tx.new.conn.now) result }
    ensures made { HasCleanDisk (state S.Store tx.new.conn.now)
        → OnOk result (IsBlank no_schema (state S.Store tx.old.conn.now).now
        → IsBlank office_schema (state S.Store tx.new.conn.now).now) }
    ensures gained { HasCleanDisk (state S.Store tx.new.conn.now)
        → OnOk result (GainsTables office_schema.tables (state S.Store tx.old.conn.now).now.schema
        (state S.Store tx.new.conn.now).now.schema) }
    ensures makes { HasCleanDisk (state S.Store tx.new.conn.now)
        → OnOk result (MakesEach office_texts (state S.Store tx.old.conn.now).now
        (state S.Store tx.new.conn.now).now) }
    ensures reported { IfErr result S.Reported }
{
    make_each(tx, &TABLES)
}

/// Adds the row that says the version of the schema.
fn add_version<S: Reports>(tx: &mut Transaction<'_, S>) -> Result<(), Error>
    ensures same_reference { tx.new.conn.ghost_name ≡ tx.old.conn.ghost_name }
    ensures inside { GoesInside (state S.Store tx.old.conn.now)
        (state S.Store tx.new.conn.now) result }
    ensures added { HasCleanDisk (state S.Store tx.new.conn.now)
        → OnOk result (MarksOffice (state S.Store tx.old.conn.now).now
        (state S.Store tx.new.conn.now).now) }
    ensures defined { HasCleanDisk (state S.Store tx.new.conn.now)
        → OnOk result ((state S.Store tx.new.conn.now).now.schema
        ≡ (state S.Store tx.old.conn.now).now.schema) }
    ensures anywhere { HasCleanDisk (state S.Store tx.new.conn.now)
        → OnOk result (AddsVersion (state S.Store tx.old.conn.now).now
        (state S.Store tx.new.conn.now).now) }
    ensures reported { IfErr result S.Reported }
{
    run(tx, texts::INSERT_VERSION, &[ValueRef::Int(NEWEST.number())])?;
    Ok(())
}

/// Makes all tables, and adds that row.
fn make_and_mark<S: Reports>(tx: &mut Transaction<'_, S>) -> Result<(), Error>
    ensures same_reference { tx.new.conn.ghost_name ≡ tx.old.conn.ghost_name }
    ensures inside { GoesInside (state S.Store tx.old.conn.now)
        (state S.Store tx.new.conn.now) result }
    ensures founds { HasCleanDisk (state S.Store tx.new.conn.now)
        → OnOk result (Founds (state S.Store tx.old.conn.now).now
        (state S.Store tx.new.conn.now).now) }
    ensures reported { IfErr result S.Reported }
{
    make_all(tx)?;
    add_version(tx)
}

/// Makes all tables, or none.
pub fn make_tables<S: Reports>(conn: &mut Connection<S>) -> Result<(), Error>
    requires { IsIdle (state S.Store conn.old) }
    ensures rest { IsIdle (state S.Store conn.new) }
    ensures worked { Works (state S.Store conn.new) → Works (state S.Store conn.old) }
    ensures live { HasCleanDisk (state S.Store conn.new)
        → OnOk result (IsTrue (state S.Store conn.new).is_open) }
    ensures made { Works (state S.Store conn.new)
        → OnOk result (IsBlank no_schema (state S.Store conn.old).now
        → IsBlank office_schema (state S.Store conn.new).now) }
    ensures kept { Works (state S.Store conn.new)
        → OnErr result ((state S.Store conn.new).now ≡ (state S.Store conn.old).now) }
{
    let mut tx = conn.transaction();
    make_all(&mut tx)?;
    tx.commit()
}

/// Makes all tables, with the row that says their version, or nothing.
pub fn make_office<S: Reports>(conn: &mut Connection<S>) -> Result<(), Error>
    requires { IsIdle (state S.Store conn.old) }
    ensures rest { IsIdle (state S.Store conn.new) }
    ensures worked { Works (state S.Store conn.new) → Works (state S.Store conn.old) }
    ensures live { HasCleanDisk (state S.Store conn.new)
        → OnOk result (IsTrue (state S.Store conn.new).is_open) }
    ensures founds { Works (state S.Store conn.new)
        → OnOk result (Founds (state S.Store conn.old).now (state S.Store conn.new).now) }
    ensures kept { Works (state S.Store conn.new)
        → OnErr result ((state S.Store conn.new).now ≡ (state S.Store conn.old).now) }
    ensures given_up { IfErr result (IsGivenUp S.Reported (Founds (state S.Store conn.old).now)
        (state S.Store conn.new)) }
{
    let mut tx = conn.transaction();
    make_and_mark(&mut tx)?;
    tx.commit()
}
