//! What disks that stop leave.
use sqlite::Files;
use sqlite_disk::{Crash, Disk, Fuse, Memory};
use std::alloc::{AllocError, Global};
use std::io;
use std::test::Fail;

/// A disk in memory that stops.
pub(crate) type Stopping = Fuse<Memory>;

/// What lies in the files of a store.
#[derive(Drop, PartialEq)]
pub struct Image {
    pub(crate) log: Vec<u8>,
    pub(crate) db: Vec<u8>,
}

/// After how many calls the disk of each file stops.
#[derive(Clone, Copy)]
pub struct Stop {
    pub log: u64,
    pub db: u64,
}

impl Stop {
    /// The stop after so many calls more than those of another.
    pub fn behind(self, first: Stop) -> Stop {
        Stop {
            log: first.log.saturating_add(self.log),
            db: first.db.saturating_add(self.db),
        }
    }

    /// The test fails at this, and says what it wants, of which line, and where the disks stopped, unless the fact
    /// holds.
    pub fn ensure(self, holds: bool, what: &str, line: &str) -> Result<(), Fail> {
        if holds {
            return Ok(());
        }
        let (log, db) = (self.log, self.db);
        Err(Fail::new(format_args!("{what}, at {log} and {db}: {line}")))
    }
}

/// The disks stop at their first calls.
pub const AT_ONCE: Stop = Stop { log: 0, db: 0 };

// More calls than a session makes.
const MOST: u64 = 20_000;

/// The disks do not stop.
pub const NEVER: Stop = Stop {
    log: MOST,
    db: MOST,
};

/// The log's disk stops at each call between these in turn, and then the database's.
pub fn stops(alloc: Global, first: Stop, last: Stop) -> Result<Vec<Stop>, AllocError> {
    let mut stops = Vec::new(alloc);
    for log in first.log..last.log {
        stops.push(Stop { log, ..NEVER })?;
    }
    for db in first.db..last.db {
        stops.push(Stop { db, ..NEVER })?;
    }
    Ok(stops)
}

/// What is left of the files of a store.
#[derive(Drop)]
pub struct Left {
    /// What was written.
    pub written: Image,
    /// What was synced. A crash loses the rest.
    pub synced: Image,
    /// The least stop that lets through all calls that there were, or the stop that was met.
    pub calls: Stop,
}

/// What is left of these files, whose disks were to stop there.
pub(crate) fn left_of(
    alloc: Global,
    files: Files<Stopping>,
    stop: Stop,
) -> Result<Left, AllocError> {
    let Files { mut log, mut db } = files;
    let calls = Stop {
        log: stop.log.saturating_sub(calls_left(&mut log)),
        db: stop.db.saturating_sub(calls_left(&mut db)),
    };
    let left_of_log = left_on(alloc, &mut log);
    let left_of_db = left_on(alloc, &mut db);
    drop(log);
    drop(db);
    let ((log, log_synced), (db, db_synced)) = (left_of_log?, left_of_db?);
    Ok(Left {
        written: Image { log, db },
        synced: Image {
            log: log_synced,
            db: db_synced,
        },
        calls,
    })
}

// How many calls a disk would still take, which it takes.
fn calls_left<D: Disk>(disk: &mut D) -> u64 {
    for calls in 0..u64::MAX {
        if !disk.may_be_used() {
            return calls;
        }
        if disk.len().is_err() {
            return calls;
        }
    }
    u64::MAX
}

// What was written to a disk, and what a crash leaves of it.
fn left_on(alloc: Global, disk: &mut Stopping) -> Result<(Vec<u8>, Vec<u8>), AllocError> {
    let written = disk.inner().bytes().to_vec(alloc)?;
    disk.crash();
    let synced = disk.inner().bytes().to_vec(alloc)?;
    Ok((written, synced))
}

/// A disk that holds these bytes and stops after these calls.
pub(crate) fn disk_with(alloc: Global, bytes: &[u8], calls: u64) -> io::Result<Stopping> {
    let mut disk = Memory::new(alloc);
    disk.write_at(0, bytes)?;
    disk.sync()?;
    Ok(Fuse::new(disk, calls))
}
