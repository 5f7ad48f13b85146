//! What copies the store of an office that is looked at.
ghost use Rattle.std.specs.Prelude.{IsTrue, IfErr};
ghost use Rattle.sqlite_disk.specs.Memory.{memory_bytes, memory_is_usable};
ghost use Rattle.reg_sql.specs.Looking.{CopiesFiles, IsOfCopies, IsOfReading};
ghost use Rattle.reg_sql.specs.Snapshots.{ReadsFiles, image_with};

use crate::copying::copies;
use crate::trouble::Trouble;
use reg_opening::opens::Opens;
use sqlite::{Connection, Error, ErrorCode, FileStore, Files, Options};
use sqlite_disk::Memory;
use std::alloc::Global;
use std::hash::{BuildHasher, RandomState};

/// What copies the store at a path, and tells what it may answer.
pub trait Copier: Drop {
    ghost use Rattle.std.specs.Prelude.{List, Result, ℕ};
    ghost use Rattle.sqlite.specs.Held.{Held};
    ghost use Rattle.reg_sql.specs.declared.trouble.Trouble.{Trouble as Why};

    /// The store that the copy is.
    type Base: Opens + Drop;

    /// What it may answer at a path.
    ghost Copies: { List ℕ → Result (Held Self.Base) Why → Type 0 };

    /// Copies the store at a path.
    fn copy(self, rt: &HostRuntime, path: &str) -> Result<Connection<Self::Base>, Trouble>
        ensures { Copies path.now result };
}

/// The files of the system at a path, which are read into memory and stay as they are. What they hold
/// no contract can say.
#[derive(Drop)]
pub struct SystemCopies;

impl Copier for SystemCopies {
    type Base = FileStore<Memory>;

    ghost Copies = { λ path. CopiesFiles };

    fn copy(self, rt: &HostRuntime, path: &str) -> Result<Connection<Self::Base>, Trouble> {
        let files = copies(rt, path)?;
        connect(rt.alloc(), files, seed(rt)?)
    }
}

/// Any number, for the tables of a store.
pub(crate) fn seed(rt: &HostRuntime) -> Result<u64, Trouble>
    ensures { IfErr result IsOfReading }
{
    let state = RandomState::new(rt).map_err(|_| Trouble::Unreadable)?;
    Ok(state.hash_one(&0u8))
}

/// A connection to copies of a database and its log.
pub(crate) fn connect(
    alloc: Global,
    files: Files<Memory>,
    seed: u64,
) -> Result<Connection<FileStore<Memory>>, Trouble>
    requires { IsTrue (memory_is_usable files.log) × IsTrue (memory_is_usable files.db) }
    ensures copies { CopiesFiles result }
    ensures reads { ReadsFiles (image_with (memory_bytes files.log) (memory_bytes files.db)) result }
{
    match Connection::open_files(alloc, files, Options::new(seed)) {
        Ok(conn) => Ok(conn),
        Err((error, left)) => {
            drop(left);
            Err(trouble(&error))
        }
    }
}

/// What an error of copies that do not open is to who looks at them.
pub(crate) fn trouble(error: &Error) -> Trouble
    ensures { IsOfCopies result }
{
    match error {
        Error::SqliteFailure(ErrorCode::OutOfMemory) => Trouble::Memory,
        Error::SqliteFailure(ErrorCode::NotADatabase | ErrorCode::DatabaseCorrupt) => {
            Trouble::NoDatabase
        }
        _ => Trouble::Store,
    }
}
