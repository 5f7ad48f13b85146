//! Sessions over the files of a store, on disks that stop: it is opened, something is done, and it
//! ends.
ghost use Rattle.std.specs.Prelude.{IfOk, IsTrue};

use crate::tests::disks::calls::session;
use crate::tests::disks::left::{Image, Left, Stop, disk_with, left_of};
use reg_opening::kind::StoreKind;
use sqlite::Files;
use sqlite_disk::Disk;
use std::alloc::Global;
use std::io;
use std::test::Fail;

/// What is done with a store that is opened.
#[derive(Clone, Copy)]
pub enum Task<'a> {
    /// Statements are carried out, each on a line of its own, and the store is judged.
    CarryOut(&'a str),
    /// An office is asked.
    Ask {
        /// Whether the office is founded where there is none.
        fresh: bool,
        /// The token for which the first clerk gets a capability, if any does.
        token: Option<&'a [u8]>,
        /// Lines of a script.
        lines: &'a [u8],
    },
    /// The jobs are done that list the blocks and the capabilities, that count what there is, and that take a
    /// capability away.
    ListBlocks,
    ListTokens,
    Count,
    Revoke,
}

/// What came of a task.
#[derive(Drop)]
pub enum Done {
    /// What the store is then to an office that opens it, if it has tables.
    Judged(Option<StoreKind>),
    /// What the lines were answered, or the job printed.
    Answered(Vec<u8>),
    /// A job ended by a fault of the store, and printed nothing.
    FaultOfStore,
    /// No store was opened, or no office in it.
    Unopened,
    /// It was not done to its end.
    Undone,
}

/// Does a task with the store of these files, if it is opened, and closes it then, or ends without that. So many
/// of its pages are kept in memory. No other function hands disks of a known type to what is over any.
pub fn session_on(
    alloc: Global,
    image: &Image,
    stop: Stop,
    pages: usize,
    task: Task<'_>,
    closes: bool,
) -> Result<(Done, Left), Fail> {
    let log = disk_with(alloc, image.log.as_slice(), stop.log);
    let db = disk_with(alloc, image.db.as_slice(), stop.db);
    let (done, files) = session(alloc, usable(log, db)?, pages, task, closes)?;
    Ok((done, left_of(alloc, files, stop)?))
}

// Files on these disks, which may be used.
fn usable<D: Disk + Drop>(log: io::Result<D>, db: io::Result<D>) -> Result<Files<D>, Fail>
    ensures log { IfOk result (λ files. IsTrue (D.Disk.is_usable files.log)) }
    ensures db { IfOk result (λ files. IsTrue (D.Disk.is_usable files.db)) }
{
    let (log, db) = (log?, db?);
    if log.may_be_used() && db.may_be_used() {
        Ok(Files { log, db })
    } else {
        Err("disks that may be used".into())
    }
}
