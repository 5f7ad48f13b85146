//! Offices that are looked at and not changed.
ghost use Rattle.std.specs.Prelude.{◌≡◌, ◌⊎◌, false, IfErr, IfOk};
ghost use Rattle.sqlite.specs.Files.{file_state};
ghost use Rattle.sqlite.specs.Held.{state};
ghost use Rattle.reg_tables.specs.Connection.{Holds, Works};
ghost use Rattle.reg_tables.specs.Version.{number_of, schema_of};
ghost use Rattle.reg_statements.specs.Content.{world_in};
ghost use Rattle.reg_opening.specs.Opening.{IsOfVersion, IsOurs};
ghost use Rattle.reg_sql.specs.Failing.{IsCaused, IsCausedIn};
ghost use Rattle.reg_sql.specs.Looking.{CopiesFiles, IsSeenIn, IsUnseenIn};
ghost use Rattle.reg_sql.specs.Opening.{IsOpened};
ghost use Rattle.reg_sql.specs.Troubles.{OpeningIsGivenUp, IsTrouble};

use crate::copier::{Copier, SystemCopies};
use crate::keeper::SqlKeeper;
use crate::trouble::Trouble;
use reg_opening::kind::{Found, find};
use reg_opening::opens::Opens;
use reg_tables::version::Version;
use sqlite::{Alter, Connection, FileStore};
use sqlite_disk::Memory;
use std::alloc::Global;

/// An office that was looked at: the version of its file, and a keeper over a copy in memory.
#[derive(Drop)]
pub struct Look<S: Alter> {
    /// The version that the file says.
    pub version: Version,
    /// The content. A change of it changes the copy alone.
    pub keeper: SqlKeeper<S>,
}

/// The office in the files at a path, which are read into memory and stay as they are: an older
/// version is brought to the newest in the copy alone, and an absent file is not made.
pub fn look_at(rt: &HostRuntime, path: &str) -> Result<Look<FileStore<Memory>>, Trouble>
    ensures { IfOk result (λ look.
        IsSeenIn file_state CopiesFiles look.version look.keeper.tables) }
{
    seen_by(rt, SystemCopies, path)
}

/// The office in a copy, or what is wrong; what was copied is dropped then.
fn seen_by<C: Copier>(rt: &HostRuntime, copier: C, path: &str) -> Result<Look<C::Base>, Trouble>
    ensures { IfOk result (λ look.
        IsSeenIn (state C.Base.Store) (C.Copies path.now) look.version look.keeper.tables) }
{
    match look_by(rt, copier, path) {
        Ok(look) => Ok(look),
        Err((trouble, left)) => {
            drop(left);
            Err(trouble)
        }
    }
}

/// The office in a copy of the store at a path. What is at the path stays as it is, if the copier
/// leaves it so: the copy alone is brought to the newest version. Where there is no office the copy
/// comes back, if there is one.
pub fn look_by<C: Copier>(
    rt: &HostRuntime,
    copier: C,
    path: &str,
) -> Result<Look<C::Base>, (Trouble, Option<Connection<C::Base>>)>
    ensures office { IfOk result (λ look.
        IsSeenIn (state C.Base.Store) (C.Copies path.now) look.version look.keeper.tables) }
    ensures trouble { IfErr result (λ refusal.
        IsUnseenIn (state C.Base.Store) (C.Copies path.now) refusal.0 refusal.1) }
    ensures cause { IfErr result (λ refusal. IsCausedIn C.Base.Reported
        (C.Base.Unloaded ⊎ C.Base.Ungrown) C.Base.Store (C.Copies path.now) refusal.0 refusal.1) }
{
    let conn = match copier.copy(rt, path) {
        Ok(conn) => conn,
        Err(trouble) => return Err((trouble, None)),
    };
    match look_into(rt.alloc(), conn) {
        Ok(look) => Ok(look),
        Err((trouble, conn)) => Err((trouble, Some(conn))),
    }
}

/// The office in a store, with the version that the store says. It is brought to the newest there.
/// Where there is none, what is wrong is told, and the connection comes back.
pub fn look_into<S: Opens + Drop>(
    alloc: Global,
    mut conn: Connection<S>,
) -> Result<Look<S>, (Trouble, Connection<S>)>
    ensures opened { IfOk result (λ look. Holds (state S.Store look.keeper.tables)
        → Works (state S.Store conn)
        × IsOpened false (state S.Store conn).now (world_in (state S.Store look.keeper.tables))) }
    ensures version { IfOk result (λ look. Works (state S.Store look.keeper.tables)
        → IsOfVersion (number_of look.version) (state S.Store conn).now) }
    ensures ours { IfOk result (λ look. Holds (state S.Store look.keeper.tables)
        → (state S.Store conn).now.schema ≡ schema_of look.version
        → IsOurs look.version (state S.Store conn).now) }
    ensures trouble { IfErr result (λ refusal. Works (state S.Store refusal.1)
        → IsTrouble (state S.Store conn) refusal.0) }
    ensures cause { IfErr result (λ refusal. IsCaused S.Reported (S.Unloaded ⊎ S.Ungrown) S.Store
        (state S.Store conn) (state S.Store refusal.1) refusal.0) }
{
    if !conn.is_autocommit() {
        return Err((Trouble::InTransaction, conn));
    }
    let found = match find(alloc, &mut conn) {
        Ok(found) => found,
        Err(fault) => return Err((Trouble::from(fault), conn)),
    };
    match found {
        Found::Ours(version, free) => {
            drop(free);
            adopted(alloc, conn, version)
        }
        Found::OtherVersion(version) => Err((Trouble::Version(version), conn)),
        Found::NotOurs(flaw) => Err((Trouble::NotOurs(flaw), conn)),
    }
}

/// Takes over a store in which an office of a version was found.
fn adopted<S: Opens + Drop>(
    alloc: Global,
    conn: Connection<S>,
    version: Version,
) -> Result<Look<S>, (Trouble, Connection<S>)>
    ensures same { IfOk result (λ look. look.version ≡ version) }
    ensures opened { IfOk result (λ look. Holds (state S.Store look.keeper.tables)
        → Works (state S.Store conn)
        × IsOpened false (state S.Store conn).now (world_in (state S.Store look.keeper.tables))) }
    ensures worked { IfOk result (λ look. Works (state S.Store look.keeper.tables)
        → Works (state S.Store conn)) }
    ensures refused { IfErr result (λ refusal.
        OpeningIsGivenUp (state S.Store conn) (state S.Store refusal.1) refusal.0) }
    ensures cause { IfErr result (λ refusal. IsCaused S.Reported (S.Unloaded ⊎ S.Ungrown) S.Store
        (state S.Store conn) (state S.Store refusal.1) refusal.0) }
{
    match SqlKeeper::adopt(alloc, conn, false) {
        Ok(keeper) => Ok(Look { version, keeper }),
        Err((fault, conn)) => Err((Trouble::from(fault), conn)),
    }
}
