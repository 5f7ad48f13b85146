//! The check of a store that an office opens.
ghost use Rattle.std.specs.Prelude.{◌≡◌, ◌⊎◌, false, IfErr, IfOk};
ghost use Rattle.sqlite.specs.Held.{state};
ghost use Rattle.sqlite.specs.State.{IsLive};
ghost use Rattle.reg_opening.specs.Audits.{knows_free};
ghost use Rattle.reg_tables.specs.Connection.{Endures, IsIdle, Stays, Tells, Works};
ghost use Rattle.reg_tables.specs.Having.{AreFreeLater, FindsTablesOf, HasTable};
ghost use Rattle.reg_tables.specs.Schema.{office_table};
ghost use Rattle.reg_tables.specs.Selecting.{BeginsWith};
ghost use Rattle.reg_tables.specs.Version.{table_count};
ghost use Rattle.reg_opening.specs.Causes.{TellsError};
ghost use Rattle.reg_opening.specs.Opening.{AreRowsOf, TellsKind, FindsKind, IsFreeBy, IsNumberShown, IsVersionOf};
ghost use Rattle.reg_opening.specs.Opening.{OpeningIsStopped, Reads, free_in, only, kind_of};

use crate::acts::count_acts;
use crate::audit::Audit;
use crate::beside::Beside;
use crate::feed::Reading;
use crate::feeder::Feeder;
use crate::flaw::{Flaw, RowFlaw};
use crate::opens::Opens;
use crate::parts::feed_parts;
use crate::rowids::check_rowids;
use reg_keeper::keeper::Fault;
use reg_records::office::Version as VersionRow;
use reg_statements::read::load;
use reg_statements::write::fault;
use reg_tables::texts::SELECT_VERSION;
use reg_tables::version::Version;
use reg_vacancies::vacancies::Vacancies;
use sqlite::Connection;
use std::alloc::Global;

/// What a store is to an office that opens it.
#[derive(Clone, Copy, Debug, PartialEq, Eq)]
pub enum StoreKind {
    /// An office's store, of this version, whose content is well kept.
    Ours(Version),
    /// An office's, of a version that this library does not know.
    OtherVersion(i64),
    /// Anything else.
    NotOurs,
}

/// What a store is, and of an office's what stands beside its tables.
#[derive(Drop)]
pub enum Found {
    /// An office's store, of this version, whose content is well kept, and what stands beside it.
    Ours(Version, Beside),
    /// An office's, of a version that this library does not know.
    OtherVersion(i64),
    /// Anything else, and why.
    NotOurs(Flaw),
}

impl Found {
    /// What the store is.
    fn kind(self) -> StoreKind
        ensures { result ≡ kind_of self }
    {
        match self {
            Found::Ours(version, _) => StoreKind::Ours(version),
            Found::OtherVersion(number) => StoreKind::OtherVersion(number),
            Found::NotOurs(_) => StoreKind::NotOurs,
        }
    }
}

/// Tells what a store is. The tables of an office are looked for by their names, and those beside
/// them are not looked at, but that none has the name of a table that the version lacks. Rows that
/// the store does not give in their order are a fault of it.
pub fn check<S: Opens>(alloc: Global, conn: &mut Connection<S>) -> Result<StoreKind, Fault>
    requires { IsIdle (state S.Store conn.old) }
    ensures decides { TellsKind (state S.Store conn.old) (state S.Store conn.new) result }
    ensures fault { IfErr result (OpeningIsStopped S.Reported (S.Unloaded ⊎ S.Ungrown) S.Store
        (state S.Store conn.old) (state S.Store conn.new)) }
{
    Ok(find(alloc, conn)?.kind())
}

/// Tells what a store is, and finds what is free in an office's, and its last act. The columns of each
/// row are read once, but those of acts that are not in the order of their numbers; of the version, and
/// of registries and their ranges, the rowids are read by themselves. The version is read before any
/// other table is looked at, wherever its table stands.
pub fn find<S: Opens>(alloc: Global, conn: &mut Connection<S>) -> Result<Found, Fault>
    requires { IsIdle (state S.Store conn.old) }
    ensures finds { FindsKind (state S.Store conn.old) (state S.Store conn.new) result }
    ensures fault { IfErr result (OpeningIsStopped S.Reported (S.Unloaded ⊎ S.Ungrown) S.Store
        (state S.Store conn.old) (state S.Store conn.new)) }
{
    match S::has_office(alloc, conn.schema()) {
        Ok(true) => find_version(alloc, conn),
        Ok(false) => Ok(Found::NotOurs(Flaw::NoOffice)),
        Err(error) => Err(fault(&error)),
    }
}

/// Tells what a store is that has the table of the version.
fn find_version<S: Opens>(alloc: Global, conn: &mut Connection<S>) -> Result<Found, Fault>
    requires idle { IsIdle (state S.Store conn.old) }
    requires live { IsLive (state S.Store conn.old) }
    requires there { HasTable (state S.Store conn.old).now.schema office_table }
    ensures finds { FindsKind (state S.Store conn.old) (state S.Store conn.new) result }
    ensures fault { IfErr result (OpeningIsStopped S.Reported (S.Unloaded ⊎ S.Ungrown) S.Store
        (state S.Store conn.old) (state S.Store conn.new)) }
{
    let Some(number) = version(alloc, conn)? else {
        return Ok(Found::NotOurs(Flaw::NoVersion));
    };
    match version_of(number) {
        Some(version) => find_office(alloc, conn, version),
        None => Ok(Found::OtherVersion(number)),
    }
}

/// The version of a number.
fn version_of(number: i64) -> Option<Version>
    ensures { IsNumberShown number result }
{
    match number {
        1 => Some(Version::First),
        2 => Some(Version::Second),
        3 => Some(Version::Third),
        4 => Some(Version::Fourth),
        _ => None,
    }
}

/// Tells what a store of a version is.
fn find_office<S: Opens>(
    alloc: Global,
    conn: &mut Connection<S>,
    version: Version,
) -> Result<Found, Fault>
    requires { IsIdle (state S.Store conn.old) }
    ensures reads { Reads version (state S.Store conn.old) (state S.Store conn.new) result }
    ensures fault { IfErr result (OpeningIsStopped S.Reported (S.Unloaded ⊎ S.Ungrown) S.Store
        (state S.Store conn.old) (state S.Store conn.new)) }
{
    if !has_tables(alloc, conn, version)? {
        return Ok(Found::NotOurs(Flaw::OtherTables));
    }
    match read_rows(alloc, conn, version)? {
        Ok(free) => Ok(Found::Ours(version, free)),
        Err(flaw) => Ok(Found::NotOurs(Flaw::Rows(flaw))),
    }
}

/// Whether a store has the tables of a version, wherever they stand, and no other of the name of a
/// table that the version lacks.
fn has_tables<S: Opens>(
    alloc: Global,
    conn: &Connection<S>,
    version: Version,
) -> Result<bool, Fault>
    ensures has { IfOk result (λ has. Tells has
        (FindsTablesOf version (state S.Store conn.now).now.schema
        × AreFreeLater version (state S.Store conn.now).now.schema)) }
    ensures fault { IfErr result (TellsError S.Reported) }
{
    match S::has_version(alloc, conn.schema(), version) {
        Ok(has) => Ok(has),
        Err(error) => Err(fault(&error)),
    }
}

/// The number of the version of the tables, if there is one.
fn version<S: Opens>(alloc: Global, conn: &mut Connection<S>) -> Result<Option<i64>, Fault>
    requires { IsIdle (state S.Store conn.old) }
    ensures idle { IsIdle (state S.Store conn.new) }
    ensures endures { Endures (state S.Store conn.old) (state S.Store conn.new) }
    ensures stays { Stays (state S.Store conn.old) (state S.Store conn.new) }
    ensures version { Works (state S.Store conn.new)
        → (has : HasTable (state S.Store conn.old).now.schema office_table)
        → IfOk result (IsVersionOf ((state S.Store conn.old).now.trees has.table.tree)) }
    ensures fault { IfErr result (OpeningIsStopped S.Reported (S.Unloaded ⊎ S.Ungrown) S.Store
        (state S.Store conn.old) (state S.Store conn.new)) }
{
    match load::<S, VersionRow>(alloc, conn, SELECT_VERSION, &[])? {
        Some(rows) => Ok(only(rows.as_slice())),
        None => Ok(None),
    }
}

/// The one version of a list.
fn only(versions: &[VersionRow]) -> Option<i64>
    ensures { result ≡ only versions.now }
{
    match versions {
        [version] => Some(version.number()),
        _ => None,
    }
}

/// What stands beside the rows of the tables of a version, if they make an office that is well kept;
/// else their first flaw.
fn read_rows<S: Opens>(
    alloc: Global,
    conn: &mut Connection<S>,
    version: Version,
) -> Result<Result<Beside, RowFlaw>, Fault>
    requires { IsIdle (state S.Store conn.old) }
    ensures idle { IsIdle (state S.Store conn.new) }
    ensures endures { Endures (state S.Store conn.old) (state S.Store conn.new) }
    ensures stays { Stays (state S.Store conn.old) (state S.Store conn.new) }
    ensures rows { Works (state S.Store conn.new)
        → BeginsWith (table_count version) (state S.Store conn.old).now.schema
        → IfOk result (λ read. AreRowsOf version (state S.Store conn.old).now (free_in read)) }
    ensures fault { IfErr result (OpeningIsStopped S.Reported (S.Unloaded ⊎ S.Ungrown) S.Store
        (state S.Store conn.old) (state S.Store conn.new)) }
{
    check_rowids(alloc, conn)?;
    let mut feeder = Feeder::new(Audit::new(alloc));
    let reading = Reading { alloc, version };
    if !feed_parts(reading, conn, &mut feeder)? {
        return Ok(Err(feeder.first_flaw()));
    }
    let flaw = feeder.first_flaw();
    let Some(vacancies) = free_of(feeder.audit)? else {
        return Ok(Err(flaw));
    };
    match count_acts(reading, conn)? {
        Ok(last) => Ok(Ok(Beside { vacancies, last })),
        Err(flaw) => Ok(Err(flaw)),
    }
}

/// What the rows that an audit was fed leave free, if they make an office that is well kept.
fn free_of(audit: Audit) -> Result<Option<Vacancies>, Fault>
    ensures free { IfOk result (IsFreeBy audit) }
    ensures fault { IfErr result (λ _. knows_free audit ≡ false) }
{
    if !audit.is_well_kept() {
        return Ok(None);
    }
    match audit.into_free() {
        Some(free) => Ok(Some(free)),
        None => Err(Fault::Memory),
    }
}
