//! The files of an office, copied into memory. They are read, and never written: an absent one is not
//! made, and a file that cannot be written is copied like any other.
ghost use Rattle.std.specs.Prelude.{IsTrue, IfErr, IfOk};
ghost use Rattle.sqlite_disk.specs.Memory.{memory_is_usable};
ghost use Rattle.reg_sql.specs.Looking.{IsOfCopies, IsOfReading};

use crate::trouble::Trouble;
use os::RangeLock;
use sqlite::Files;
use sqlite_disk::{Disk, Memory};
use std::alloc::Global;
use std::fs;
use std::fs::Metadata;
use std::io::{self, ErrorKind, Read};
use std::os::fd::AsRawFd;
use std::os::unix::fs::MetadataExt;

/// Where in a file SQLite locks it, and how many bytes: its pending, reserved and shared locks.
const LOCK_START: u64 = 1 << 30;

const LOCK_BYTES: u64 = 512;

/// Where an office's files are.
#[derive(Drop)]
pub(crate) struct Places {
    /// The database file.
    pub file: String,
    /// Its log.
    pub log: String,
    /// The rollback journal that SQLite may have left.
    pub journal: String,
}

impl Places {
    /// Those of the database file at a path, whatever links lead to it. `NoFile` where there is none.
    pub(crate) fn of(rt: &HostRuntime, path: &str) -> Result<Places, Trouble>
        ensures { IfErr result IsOfReading }
    {
        if path == ":memory:" || path.starts_with("file:") {
            return Err(Trouble::NoFile);
        }
        let real = fs::canonicalize(rt, path).map_err(trouble)?;
        let log = format!(in rt.alloc(); "{}-wal", real.as_str())?;
        let journal = format!(in rt.alloc(); "{}-journal", real.as_str())?;
        let file = String::from_str(rt.alloc(), real.as_str())?;
        Ok(Places { file, log, journal })
    }
}

/// Copies of the database file at a path and of its log, as they stand beside each other: nobody
/// writes them meanwhile who locks them as SQLite does.
pub fn copies(rt: &HostRuntime, path: &str) -> Result<Files<Memory>, Trouble>
    ensures usable { IfOk result (λ files. IsTrue (memory_is_usable files.log)
        × IsTrue (memory_is_usable files.db)) }
    ensures trouble { IfErr result IsOfCopies }
{
    let places = Places::of(rt, path)?;
    let mut db = open_shared(rt, places.file.as_str())?;
    if has_hot_journal(rt, places.journal.as_str())? {
        return Err(Trouble::Journal);
    }
    let log = copy_of_log(rt, places.log.as_str())?;
    let db = copy_of(rt.alloc(), &mut db)?;
    Ok(Files { log, db })
}

/// A copy of the log at a path, which is empty where there is none.
fn copy_of_log(rt: &HostRuntime, path: &str) -> Result<Memory, Trouble>
    ensures usable { IfOk result (λ copy. IsTrue (memory_is_usable copy)) }
    ensures trouble { IfErr result IsOfCopies }
{
    match open_shared(rt, path) {
        Ok(mut log) => copy_of(rt.alloc(), &mut log),
        Err(Trouble::NoFile) => Ok(Memory::new(rt.alloc())),
        Err(trouble) => Err(trouble),
    }
}

/// Opens a regular file with one name for reading. What is there is asked before it is opened, since a named
/// pipe would be waited for.
pub(crate) fn open_regular(rt: &HostRuntime, path: &str) -> Result<fs::File, Trouble>
    ensures { IfErr result IsOfReading }
{
    refuse_special(&fs::metadata(rt, path).map_err(trouble)?)?;
    let file = fs::open(rt, path).map_err(trouble)?;
    // Something else may have come there meanwhile.
    refuse_special(&file.metadata().map_err(trouble)?)?;
    Ok(file)
}

// Refuses what is no regular file with one name.
fn refuse_special(found: &Metadata) -> Result<(), Trouble>
    ensures { IfErr result IsOfReading }
{
    if !found.is_file() || found.nlink() != 1 {
        return Err(Trouble::Special);
    }
    Ok(())
}

/// Opens it where no other has it open to write it.
fn open_shared(rt: &HostRuntime, path: &str) -> Result<fs::File, Trouble>
    ensures { IfErr result IsOfCopies }
{
    let file = open_regular(rt, path)?;
    if os::try_lock_range(file.as_raw_fd(), RangeLock::Shared, LOCK_START, LOCK_BYTES) != 0 {
        return Err(Trouble::Busy);
    }
    Ok(file)
}

/// Whether SQLite left a rollback journal that it has to play back: one that is there, and does not
/// begin with a zero.
pub(crate) fn has_hot_journal(rt: &HostRuntime, path: &str) -> Result<bool, Trouble>
    ensures { IfErr result IsOfReading }
{
    if is_special(rt, path) {
        return Err(Trouble::Unreadable);
    }
    match fs::open(rt, path) {
        Ok(mut journal) => {
            let mut first = [0];
            let count = journal.read(&mut first).map_err(trouble)?;
            Ok(count == 1 && first[0] != 0)
        }
        Err(error) if error.kind() == ErrorKind::NotFound => Ok(false),
        Err(error) => Err(trouble(error)),
    }
}

// Whether something else than a regular file is at a path.
fn is_special(rt: &HostRuntime, path: &str) -> bool {
    match fs::metadata(rt, path) {
        Ok(found) => !found.is_file(),
        Err(_) => false,
    }
}

/// A copy of all the bytes of a reader.
pub(crate) fn copy_of<R: Read>(alloc: Global, reader: &mut R) -> Result<Memory, Trouble>
    ensures usable { IfOk result (λ copy. IsTrue (memory_is_usable copy)) }
    ensures trouble { IfErr result IsOfReading }
{
    let mut copy = Memory::new(alloc);
    let mut buffer = [0; 4096];
    let mut at: usize = 0;
    'reads: for _ in 0..u64::MAX {
        let count = reader.read(&mut buffer).map_err(trouble)?;
        if count == 0 {
            return Ok(copy);
        }
        copy.write_at(at, &buffer[..count]).map_err(trouble)?;
        at = at.checked_add(count).ok_or(Trouble::Memory)?;
    }
    Err(Trouble::Unreadable)
}

/// What an error of the system is to who looks at a file.
fn trouble(error: io::Error) -> Trouble
    ensures { IsOfReading result }
{
    match error.kind() {
        ErrorKind::OutOfMemory => Trouble::Memory,
        ErrorKind::NotFound => Trouble::NoFile,
        _ => Trouble::Unreadable,
    }
}
