//! Stores that an office is opened from.
ghost use Rattle.std.specs.Prelude.{◌≡◌, ◌≢◌, ◌⊎◌, true, false, IfErr, IfOk, IsTrue};
ghost use Rattle.std.specs.Bool.{Decides};
ghost use Rattle.sqlite.specs.Files.{file_state};
ghost use Rattle.sqlite.specs.Held.{state};
ghost use Rattle.sqlite.specs.State.{HasCleanDisk};
ghost use Rattle.sqlite.specs.Steps.{IsEmpty, over_memory};
ghost use Rattle.sqlite_wal.specs.Files.{image_at};
ghost use Rattle.reg_core.specs.World.{empty_world};
ghost use Rattle.reg_keeper.specs.declared.keeper.Fault.{Fault as KeeperFault};
ghost use Rattle.reg_tables.specs.Connection.{Holds, IsIdle, Tells, Works};
ghost use Rattle.reg_tables.specs.Having.{AreFree, HasTables};
ghost use Rattle.reg_tables.specs.Making.{HasCounter, IsBegunBeside};
ghost use Rattle.reg_tables.specs.Schema.{office_schema};
ghost use Rattle.reg_tables.specs.Version.{newest};
ghost use Rattle.reg_statements.specs.Content.{world_in};
ghost use Rattle.reg_opening.specs.Causes.{TellsError};
ghost use Rattle.reg_opening.specs.Opening.{IsFoundAs};
ghost use Rattle.reg_opening.specs.declared.kind.StoreKind.TheVariants as kinds;
ghost use Rattle.reg_sql.specs.Failing.{IsFailed, IsFailedBy};
ghost use Rattle.reg_sql.specs.Keeping.{IsHonest, KeepsBeside};
ghost use Rattle.reg_sql.specs.Opening.{Brings, HasNoTables, IsAsItWas, IsOpened, IsOpenedBy, IsRefused};
ghost use Rattle.reg_sql.specs.Opening.{RefusesOpening, IsTakenOver, StandsAlone, TakesOver};
ghost use Rattle.reg_sql.specs.Opening.{OpensFiles, refusal_of};
ghost use Rattle.reg_sql.specs.Paths.{RefusesFiles, RefusesPath, refusal_at_path};
ghost use Rattle.reg_sql.specs.declared.open.OpenFault.TheVariants as refusals;

use crate::keeper::SqlKeeper;
use crate::opener::{Opener, SystemFiles};
use reg_keeper::keeper::Fault;
use reg_migration::migrate::migrate;
use reg_opening::beside::Beside;
use reg_opening::kind::{Found, find};
use reg_opening::opens::Opens;
use reg_statements::write::fault;
use reg_tables::make::make_office;
use reg_tables::version::Version;
use reg_vacancies::vacancies::Vacancies;
use sqlite::{Connection, Error, ErrorCode, FileFrom, FileStore, MemStore, Start};
use std::alloc::Global;

/// Why no office is opened. The store is as it was.
#[derive(Clone, Copy, Debug, PartialEq, Eq)]
pub enum OpenFault {
    /// The store is an office's, of this version, which is none that this library knows.
    Version(i64),
    /// Another has the store open.
    Busy,
    /// Anything else than an office's tables with rows of a well kept office in them.
    NotOurs,
    /// There was no memory, or the store could not be read or written.
    Fault(Fault),
}

impl From<Fault> for OpenFault {
    ghost use Rattle.std.specs.Prelude.{◌≡◌};
    ghost use Rattle.reg_sql.specs.declared.open.OpenFault.TheVariants as refusals;

    ghost from_gives = { λ given refusal. refusal ≡ refusals.Fault given };

    fn from(fault: Fault) -> OpenFault {
        OpenFault::Fault(fault)
    }
}

impl<S: Opens> SqlKeeper<S> {
    /// Takes over the store of a connection. A `fresh` office is founded where no name of its tables
    /// is taken; else the store must have the tables of an office whose content is well kept, and
    /// the columns of each row are read once. An office of an older version is brought to the newest in one
    /// transaction: the tables that it lacks come, their names not being taken, and its content is
    /// the same. Other tables may stand beside them, and are not looked at. A connection inside a
    /// transaction is not ours. Where it is refused the connection comes back as it was: nothing was
    /// changed or committed, and no transaction was begun or ended.
    pub fn adopt(
        alloc: Global,
        mut conn: Connection<S>,
        fresh: bool,
    ) -> Result<SqlKeeper<S>, (OpenFault, Connection<S>)>
        ensures opened { IfOk result (λ keeper. Holds (state S.Store keeper.tables)
            → Works (state S.Store conn)
            × IsOpened fresh (state S.Store conn).now (world_in (state S.Store keeper.tables))) }
        ensures taken { IfOk result (λ keeper. Works (state S.Store keeper.tables)
            → Works (state S.Store conn)
            × IsTakenOver fresh (state S.Store conn).now (state S.Store keeper.tables).now) }
        ensures live { IfOk result (λ keeper. IsHonest (state S.Store keeper.tables)
            → HasCleanDisk (state S.Store conn)
            × (IsTrue (state S.Store conn).is_open → StandsAlone (state S.Store conn).now
            → Holds (state S.Store keeper.tables))) }
        ensures refused { IfErr result (λ refusal. (state S.Store conn).in_transaction ≡ false
            → Works (state S.Store refusal.1)
            → IsRefused fresh (state S.Store conn).now refusal.0) }
        ensures unchanged { IfErr result (λ refusal.
            IsAsItWas (state S.Store conn) (state S.Store refusal.1)) }
        ensures cause { IfErr result (λ refusal. IsFailed S.Reported (S.Unloaded ⊎ S.Ungrown) S.Store
            fresh (state S.Store conn) (state S.Store refusal.1) refusal.0) }
    {
        match take_over(alloc, &mut conn, fresh) {
            Ok(beside) => Ok(SqlKeeper::new(alloc, conn, beside)),
            Err(fault) => Err((fault, conn)),
        }
    }
}

/// Founds an office where one is wanted, or finds the one that is there, and what stands beside it,
/// and brings it to the newest version.
fn take_over<S: Opens>(
    alloc: Global,
    conn: &mut Connection<S>,
    fresh: bool,
) -> Result<Beside, OpenFault>
    ensures takes { TakesOver fresh (state S.Store conn.old) (state S.Store conn.new) result }
    ensures cause { IfErr result (IsFailed S.Reported (S.Unloaded ⊎ S.Ungrown) S.Store
        fresh (state S.Store conn.old) (state S.Store conn.new)) }
{
    if !conn.is_autocommit() {
        return Err(OpenFault::NotOurs);
    }
    if is_to_found(alloc, conn, fresh)? {
        return found(alloc, conn);
    }
    match find(alloc, conn)? {
        Found::Ours(version, beside) if is_newest(version) => Ok(beside),
        Found::Ours(older, beside) => bring(conn, older, beside),
        Found::OtherVersion(version) => Err(OpenFault::Version(version)),
        Found::NotOurs(_) => Err(OpenFault::NotOurs),
    }
}

/// Whether a version is the newest.
fn is_newest(version: Version) -> bool
    ensures { Decides result (version ≡ newest) }
{
    match version {
        Version::Fourth => true,
        Version::First | Version::Second | Version::Third => false,
    }
}

/// Brings an office of an older version to the newest. What stands beside it stays so, and nothing is
/// read once its tables are changed.
fn bring<S: Opens>(
    conn: &mut Connection<S>,
    older: Version,
    beside: Beside,
) -> Result<Beside, OpenFault>
    requires idle { IsIdle (state S.Store conn.old) }
    requires version { older ≢ newest }
    requires found { Works (state S.Store conn.old)
        → IsFoundAs (state S.Store conn.old).now (kinds.Ours older) }
    ensures brings { Brings older beside (state S.Store conn.old) (state S.Store conn.new) result }
    ensures cause { IfErr result (IsFailed S.Reported (S.Unloaded ⊎ S.Ungrown) S.Store
        false (state S.Store conn.old) (state S.Store conn.new)) }
{
    match migrate(conn, older) {
        Ok(()) => Ok(beside),
        Err(error) => Err(OpenFault::Fault(fault(&error))),
    }
}

/// Whether a new office is wanted, and no name of its tables is taken.
fn is_to_found<S: Opens>(alloc: Global, conn: &Connection<S>, fresh: bool) -> Result<bool, Fault>
    ensures told { IfOk result (λ b. Tells b
        ((fresh ≡ true) × AreFree (state S.Store conn.now).now.schema)) }
    ensures fault { IfErr result (TellsError S.Reported) }
{
    if !fresh {
        return Ok(false);
    }
    match S::has_room(alloc, conn.schema()) {
        Ok(has) => Ok(has),
        Err(error) => Err(fault(&error)),
    }
}

/// Founds an office beside what stands in a store.
fn found<S: Opens>(alloc: Global, conn: &mut Connection<S>) -> Result<Beside, OpenFault>
    requires idle { IsIdle (state S.Store conn.old) }
    requires free { AreFree (state S.Store conn.old).now.schema }
    ensures rest { IsIdle (state S.Store conn.new) }
    ensures worked { Works (state S.Store conn.new) → Works (state S.Store conn.old) }
    ensures keeps { IfOk result (λ beside. KeepsBeside beside (state S.Store conn.new)) }
    ensures has { Works (state S.Store conn.new)
        → IfOk result (λ beside. HasTables (state S.Store conn.new).now.schema) }
    ensures alone { Works (state S.Store conn.new)
        → IfOk result (λ beside. HasNoTables (state S.Store conn.old).now
        → (state S.Store conn.new).now.schema ≡ office_schema) }
    ensures empty { Holds (state S.Store conn.new)
        → IfOk result (λ beside. HasNoTables (state S.Store conn.old).now
        × (world_in (state S.Store conn.new) ≡ empty_world)) }
    ensures beside { Works (state S.Store conn.new)
        → IfOk result (λ beside. AreFree (state S.Store conn.old).now.schema
        → HasCounter (state S.Store conn.old).now.schema
        → IsBegunBeside (state S.Store conn.old).now (state S.Store conn.new).now) }
    ensures live { HasCleanDisk (state S.Store conn.new)
        → IfOk result (λ beside. IsTrue (state S.Store conn.new).is_open) }
    ensures fault { IfErr result (λ refusal. (given : KeeperFault) × (refusal ≡ refusals.Fault given)) }
    ensures unchanged { Works (state S.Store conn.new)
        → IfErr result (λ refusal. (state S.Store conn.new).now ≡ (state S.Store conn.old).now) }
    ensures cause { IfErr result (IsFailed S.Reported (S.Unloaded ⊎ S.Ungrown) S.Store
        true (state S.Store conn.old) (state S.Store conn.new)) }
{
    match make_office(conn) {
        Ok(()) => Ok(Beside {
            vacancies: Vacancies::new(alloc),
            last: 0,
        }),
        Err(error) => Err(OpenFault::Fault(fault(&error))),
    }
}

/// A store in memory, without tables.
fn empty_memory(alloc: Global) -> Result<Connection<MemStore>, Fault>
    ensures { IfOk result (λ conn. IsEmpty (state over_memory conn)) }
{
    let conn = Connection::open_in_memory(alloc)?;
    Ok(conn)
}

impl SqlKeeper<MemStore> {
    /// A new office in memory, without rows. The error is always a fault.
    pub fn in_memory(alloc: Global) -> Result<SqlKeeper<MemStore>, OpenFault>
        ensures empty { IfOk result (λ keeper. Holds (state over_memory keeper.tables)
            × (world_in (state over_memory keeper.tables) ≡ empty_world)) }
        ensures fault { IfErr result (λ refusal. (given : KeeperFault)
            × (refusal ≡ refusals.Fault given)) }
    {
        let mut conn = empty_memory(alloc)?;
        let beside = found(alloc, &mut conn)?;
        Ok(SqlKeeper::new(alloc, conn, beside))
    }
}

/// What was opened where no office is: the store, as it was found; or none, with the error and what
/// is left of what was opened.
pub type Opened<S, L> = Result<Connection<S>, (Error, L)>;

/// The office in the store that is opened at a path. A `fresh` one is founded where no name of its
/// tables is taken. Where there is none, what was opened comes back: a store is refused as by `adopt`;
/// of an error want of memory, a disk that failed or is full, or a file that is too long is a fault,
/// a file that another has open is `Busy`, and any other is `NotOurs`.
pub fn open_by<O: Opener>(
    rt: &HostRuntime,
    opener: O,
    path: &str,
    fresh: bool,
) -> Result<SqlKeeper<O::Base>, (OpenFault, Opened<O::Base, O::Left>)>
    ensures office { IfOk result (λ keeper.
        IsOpenedBy (state O.Base.Store) (O.Opens path.now) fresh keeper.tables) }
    ensures refused { IfErr result (λ refusal.
        RefusesOpening (state O.Base.Store) (O.Opens path.now) fresh refusal.0 refusal.1) }
    ensures cause { IfErr result (λ refusal. IsFailedBy O.Base.Reported
        (O.Base.Unloaded ⊎ O.Base.Ungrown) O.Base.Store (O.Opens path.now) fresh refusal.0 refusal.1) }
{
    let conn = match opener.open(rt, path) {
        Ok(conn) => conn,
        Err((error, left)) => return Err((refusal(&error), Err((error, left)))),
    };
    match SqlKeeper::adopt(rt.alloc(), conn, fresh) {
        Ok(keeper) => Ok(keeper),
        Err((fault, conn)) => Err((fault, Ok(conn))),
    }
}

impl<T: Start> SqlKeeper<FileStore<FileFrom<T>>> {
    /// The office in the files at a path, as by `open_by`, where `start` says what they hold. What was
    /// opened where there is none is dropped.
    pub fn open_at(
        rt: &HostRuntime,
        path: &str,
        fresh: bool,
        start: T,
    ) -> Result<SqlKeeper<FileStore<FileFrom<T>>>, OpenFault>
        ensures office { IfOk result (λ keeper.
            IsOpenedBy file_state (OpensFiles (image_at T.Start)) fresh keeper.tables) }
        ensures refused { RefusesFiles (λ keeper. keeper.tables) (image_at T.Start) fresh result }
    {
        match open_by(rt, SystemFiles { start }, path, fresh) {
            Ok(keeper) => Ok(keeper),
            Err((fault, left)) => {
                drop(left);
                Err(fault)
            }
        }
    }

    /// The office in the files at a path, as by `open_at`, but a file that another has open is `NotOurs` too.
    pub fn from_path(
        rt: &HostRuntime,
        path: &str,
        fresh: bool,
        start: T,
    ) -> Result<SqlKeeper<FileStore<FileFrom<T>>>, OpenFault>
        ensures office { IfOk result (λ keeper.
            IsOpenedBy file_state (OpensFiles (image_at T.Start)) fresh keeper.tables) }
        ensures refused { RefusesPath (λ keeper. keeper.tables) (image_at T.Start) fresh result }
    {
        match SqlKeeper::open_at(rt, path, fresh, start) {
            Ok(keeper) => Ok(keeper),
            Err(fault) => Err(refusal_at(fault)),
        }
    }
}

/// What a refusal of `open_at` is to who opens by `from_path`.
fn refusal_at(refusal: OpenFault) -> OpenFault
    ensures { result ≡ refusal_at_path refusal }
{
    match refusal {
        OpenFault::Busy => OpenFault::NotOurs,
        _ => refusal,
    }
}

/// What an error of an opened file is to an office.
fn refusal(error: &Error) -> OpenFault
    ensures { result ≡ refusal_of error.now }
{
    match error {
        Error::SqliteFailure(ErrorCode::OutOfMemory) => OpenFault::Fault(Fault::Memory),
        Error::SqliteFailure(ErrorCode::DatabaseBusy) => OpenFault::Busy,
        Error::SqliteFailure(
            ErrorCode::NotADatabase | ErrorCode::DatabaseCorrupt | ErrorCode::CannotOpen,
        ) => OpenFault::NotOurs,
        _ => OpenFault::Fault(Fault::Store),
    }
}
