//! A copy of an office, as it stood at one moment: a database file that needs no log, in which the
//! office was seen.
ghost use Rattle.std.specs.Prelude.{◌≡◌, IsTrue, IfErr, IfOk};
ghost use Rattle.sqlite.specs.Files.{file_state};
ghost use Rattle.sqlite_disk.specs.Memory.{memory_bytes, memory_is_usable};
ghost use Rattle.reg_sql.specs.Looking.{IsOfCopies, IsSeenIn};
ghost use Rattle.reg_sql.specs.Snapshots.{IsClosedIn, IsTakenFrom, IsWorkedIn, ReadsFiles, alone, image_with};

use crate::copier::{connect, seed, trouble};
use crate::look::{Look, look_into};
use crate::originals::SystemOriginal;
use crate::steady::{Original, TRIES, steady_copy};
use crate::trouble::Trouble;
use sqlite::{Connection, FileStore, Files};
use sqlite_disk::{Disk, Memory};
use std::alloc::Global;

/// A copy of an office.
#[derive(Drop)]
pub struct Snapshot {
    /// The office that is seen in the bytes.
    pub look: Look<FileStore<Memory>>,
    /// The bytes of a database file, which needs no log.
    pub bytes: Vec<u8>,
}

/// A copy of the office in the files at a path, as they stood at one moment. They are read and stay as
/// they are, also while another writes them, and no lock is taken. Else as `snapshot_of`.
pub fn snapshot_at(rt: &HostRuntime, path: &str) -> Result<Snapshot, Trouble>
    ensures { IfOk result (λ copy. IsSeenIn file_state (ReadsFiles (alone copy.bytes.items))
        copy.look.version copy.look.keeper.tables) }
{
    let mut original = SystemOriginal::at(rt, path)?;
    snapshot_of(rt.alloc(), &mut original, seed(rt)?)
}

/// A copy of the office in a file and its log, as they stood at one moment, with the log worked into
/// the file; and the office that is seen in that file alone. `Unsteady` where another changed them each
/// time that they were read; else as `look_into`. `seed` is any number.
pub fn snapshot_of<O: Original>(
    alloc: Global,
    original: &mut O,
    seed: u64,
) -> Result<Snapshot, Trouble>
    ensures taken { O.Tells → IfOk result (λ copy. IsTakenFrom TRIES (O.readings original.old)
        (O.readings original.new) copy.bytes.items) }
    ensures seen { IfOk result (λ copy. IsSeenIn file_state (ReadsFiles (alone copy.bytes.items))
        copy.look.version copy.look.keeper.tables) }
{
    let files = steady_copy(alloc, original)?;
    let bytes = worked_in(alloc, files, seed)?;
    let look = look_alone(alloc, bytes.as_slice(), seed)?;
    Ok(Snapshot { look, bytes })
}

/// The bytes of a database file once its log was worked into it.
fn worked_in(alloc: Global, files: Files<Memory>, seed: u64) -> Result<Vec<u8>, Trouble>
    requires { IsTrue (memory_is_usable files.log) × IsTrue (memory_is_usable files.db) }
    ensures worked { IfOk result (λ bytes. IsWorkedIn
        (image_with (memory_bytes files.log) (memory_bytes files.db)) bytes.items) }
    ensures trouble { IfErr result IsOfCopies }
{
    let conn = connect(alloc, files, seed)?;
    let closed = closed(conn)?;
    Ok(Vec::from_slice(alloc, closed.bytes())?)
}

/// The database file of a connection that is closed, with its log worked into it.
fn closed(conn: Connection<FileStore<Memory>>) -> Result<Memory, Trouble>
    ensures closed { IfOk result (λ file. IsClosedIn (file_state conn) (memory_bytes file)) }
    ensures trouble { IfErr result IsOfCopies }
{
    match conn.close_files() {
        Ok(files) => Ok(files.db),
        Err((error, store)) => {
            drop(store.close());
            Err(trouble(&error))
        }
    }
}

/// The office that is seen in the bytes of a database file alone.
fn look_alone(alloc: Global, bytes: &[u8], seed: u64) -> Result<Look<FileStore<Memory>>, Trouble>
    ensures { IfOk result (λ look. IsSeenIn file_state (ReadsFiles (alone bytes.now)) look.version
        look.keeper.tables) }
{
    let db = file_of(alloc, bytes)?;
    let log = Memory::new(alloc);
    let conn = connect(alloc, Files { log, db }, seed)?;
    match look_into(alloc, conn) {
        Ok(look) => Ok(look),
        Err((why, conn)) => {
            drop(conn);
            Err(why)
        }
    }
}

/// A file in memory with these bytes.
fn file_of(alloc: Global, bytes: &[u8]) -> Result<Memory, Trouble>
    ensures usable { IfOk result (λ file. IsTrue (memory_is_usable file)) }
    ensures bytes { IfOk result (λ file. memory_bytes file ≡ bytes.now) }
    ensures trouble { IfErr result IsOfCopies }
{
    let mut file = Memory::new(alloc);
    match file.write_at(0, bytes) {
        Ok(()) => Ok(file),
        Err(_) => Err(Trouble::Memory),
    }
}
