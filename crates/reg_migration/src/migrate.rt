//! An office of an older version is made one of the newest, or left as it is.

ghost use Rattle.std.specs.Prelude.{◌≡◌, IfErr, IsTrue, OnOk, OnErr};
ghost use Rattle.sqlite.specs.Held.{state};
ghost use Rattle.sqlite.specs.State.{HasCleanDisk};
ghost use Rattle.reg_tables.specs.Connection.{IsIdle, Works};
ghost use Rattle.reg_tables.specs.Editing.{IsOfficeOf};
ghost use Rattle.reg_tables.specs.Faulting.{IsGivenUp};
ghost use Rattle.reg_tables.specs.Having.{GainsTables};
ghost use Rattle.reg_tables.specs.Inside.{GoesInside, StaysInside};
ghost use Rattle.reg_tables.specs.Making.{HasLater};
ghost use Rattle.reg_tables.specs.Version.{later_than};
ghost use Rattle.reg_migration.specs.Beside.{MakesLater, RaisesAnywhere, UpgradesBeside};
ghost use Rattle.reg_migration.specs.Migrating.{Migrates, RaisesOffice};

use reg_tables::make::{later_texts, make_each};
use reg_tables::reports::Reports;
use reg_tables::texts;
use reg_tables::version::{NEWEST, Version};
use reg_tables::write::run;
use sqlite::types::ValueRef;
use sqlite::{Connection, Error, Transaction};

/// Makes the tables that a version lacks.
fn make_later<S: Reports>(tx: &mut Transaction<'_, S>, from: Version) -> Result<(), Error>
    ensures same_reference { tx.new.conn.ghost_name ≡ tx.old.conn.ghost_name }
    ensures inside { StaysInside (state S.Store tx.old.conn.now) (state S.Store tx.new.conn.now) }
    ensures made { HasCleanDisk (state S.Store tx.new.conn.now)
        → OnOk result (IsOfficeOf from (state S.Store tx.old.conn.now).now
        → HasLater from (state S.Store tx.old.conn.now).now
        (state S.Store tx.new.conn.now).now) }
    ensures gained { HasCleanDisk (state S.Store tx.new.conn.now)
        → OnOk result (GainsTables (later_than from) (state S.Store tx.old.conn.now).now.schema
        (state S.Store tx.new.conn.now).now.schema) }
    ensures beside { HasCleanDisk (state S.Store tx.new.conn.now)
        → OnOk result (MakesLater from (state S.Store tx.old.conn.now).now
        (state S.Store tx.new.conn.now).now) }
    ensures reported { IfErr result S.Reported }
{
    make_each(tx, later_texts(from))
}

/// Writes the newest version into the row that says the version.
fn raise_version<S: Reports>(tx: &mut Transaction<'_, S>) -> Result<(), Error>
    ensures same_reference { tx.new.conn.ghost_name ≡ tx.old.conn.ghost_name }
    ensures inside { GoesInside (state S.Store tx.old.conn.now)
        (state S.Store tx.new.conn.now) result }
    ensures raised { HasCleanDisk (state S.Store tx.new.conn.now)
        → OnOk result (RaisesOffice (state S.Store tx.old.conn.now).now
        (state S.Store tx.new.conn.now).now) }
    ensures defined { HasCleanDisk (state S.Store tx.new.conn.now)
        → OnOk result ((state S.Store tx.new.conn.now).now.schema
        ≡ (state S.Store tx.old.conn.now).now.schema) }
    ensures anywhere { HasCleanDisk (state S.Store tx.new.conn.now)
        → OnOk result (RaisesAnywhere (state S.Store tx.old.conn.now).now
        (state S.Store tx.new.conn.now).now) }
    ensures reported { IfErr result S.Reported }
{
    run(tx, texts::CHANGE_VERSION, &[ValueRef::Int(NEWEST.number())])?;
    Ok(())
}

/// Makes the tables that a version lacks, and writes the newest version.
fn make_and_raise<S: Reports>(tx: &mut Transaction<'_, S>, from: Version) -> Result<(), Error>
    ensures same_reference { tx.new.conn.ghost_name ≡ tx.old.conn.ghost_name }
    ensures inside { GoesInside (state S.Store tx.old.conn.now)
        (state S.Store tx.new.conn.now) result }
    ensures migrated { HasCleanDisk (state S.Store tx.new.conn.now)
        → OnOk result (Migrates from (state S.Store tx.old.conn.now).now
        (state S.Store tx.new.conn.now).now) }
    ensures gained { HasCleanDisk (state S.Store tx.new.conn.now)
        → OnOk result (GainsTables (later_than from) (state S.Store tx.old.conn.now).now.schema
        (state S.Store tx.new.conn.now).now.schema) }
    ensures beside { HasCleanDisk (state S.Store tx.new.conn.now)
        → OnOk result (UpgradesBeside from (state S.Store tx.old.conn.now).now
        (state S.Store tx.new.conn.now).now) }
    ensures reported { IfErr result S.Reported }
{
    make_later(tx, from)?;
    raise_version(tx)
}

/// Makes of an office of a version one of the newest, with all that it has, or nothing.
pub fn migrate<S: Reports>(conn: &mut Connection<S>, from: Version) -> Result<(), Error>
    requires { IsIdle (state S.Store conn.old) }
    ensures rest { IsIdle (state S.Store conn.new) }
    ensures worked { Works (state S.Store conn.new) → Works (state S.Store conn.old) }
    ensures live { HasCleanDisk (state S.Store conn.new)
        → OnOk result (IsTrue (state S.Store conn.new).is_open) }
    ensures migrated { Works (state S.Store conn.new)
        → OnOk result (Migrates from (state S.Store conn.old).now (state S.Store conn.new).now) }
    ensures gained { Works (state S.Store conn.new)
        → OnOk result (GainsTables (later_than from) (state S.Store conn.old).now.schema
        (state S.Store conn.new).now.schema) }
    ensures beside { Works (state S.Store conn.new)
        → OnOk result (UpgradesBeside from (state S.Store conn.old).now
        (state S.Store conn.new).now) }
    ensures kept { Works (state S.Store conn.new)
        → OnErr result ((state S.Store conn.new).now ≡ (state S.Store conn.old).now) }
    ensures given_up { IfErr result (IsGivenUp S.Reported
        (λ db. GainsTables (later_than from) (state S.Store conn.old).now.schema db.schema)
        (state S.Store conn.new)) }
{
    let mut tx = conn.transaction();
    make_and_raise(&mut tx, from)?;
    tx.commit()
}
