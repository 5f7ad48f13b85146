//! The folders of the system whose files are served with an office.
ghost use Rattle.std.specs.Prelude.{◌↔◌, ◌≤◌, IsTrue};
ghost use Rattle.std.specs.Fs.{IsFile, file_type, metadata_len};
ghost use Rattle.std.specs.Path.{PathStartsWith, path_buf_bytes};

use reg_folder::files::{SiteFile, SiteFiles};
use reg_program::faults::{JobFailure, Undone};
use std::alloc::{AllocError, Global};
use std::fs::Metadata;
use std::io::ErrorKind;
use std::os::fd::AsRawFd;
use std::os::unix::fs::MetadataExt;
use std::path::PathBuf;
use std::{fs, io};

/// How many bytes a file has at most that is sent.
const MOST_BYTES: u64 = 268_435_456;

/// Where the system keeps the paths of what the program has open.
const OPEN_FILES: &str = "/proc/self/fd";

/// What stands behind the path of an open file that was replaced or removed meanwhile.
const REPLACED: &str = " (deleted)";

// ---- A folder, before the office is opened

/// A folder whose files are served, and the file of the office.
#[derive(Drop)]
pub struct SitePlace {
    /// The path of the folder, as it was given.
    folder: String,
    /// The path of the office's file, after all links.
    office: String,
}

/// The folder at a path, with the office in the file at a path. `Read` where it is no folder that can be
/// read, or holds the file or lies above it.
pub fn site_at(rt: &HostRuntime, path: &str, folder: &str) -> Result<SitePlace, Undone> {
    let alloc = rt.alloc();
    let Ok(real) = fs::canonicalize(rt, folder) else {
        return Err(Undone::Fault(JobFailure::Read));
    };
    refuse_unreadable(rt, alloc, real.as_str())?;
    let office = match fs::canonicalize(rt, path) {
        Ok(office) => office,
        // Opening it says why.
        Err(_) => PathBuf::from_str(alloc, path)?,
    };
    if is_in(&office, &real) {
        return Err(unread(alloc, "the office's file is in that folder")?);
    }
    Ok(SitePlace {
        folder: String::from_str(alloc, folder)?,
        office: String::from_str(alloc, office.as_str())?,
    })
}

// Refuses what is no folder that can be read, and a system that does not say which files are open.
fn refuse_unreadable(rt: &HostRuntime, alloc: Global, real: &str) -> Result<(), Undone> {
    let inside = format!(in alloc; "{real}/.")?;
    if fs::metadata(rt, inside.as_str()).is_err() {
        return Err(Undone::Fault(JobFailure::Read));
    }
    let Ok(opened) = fs::open(rt, real) else {
        return Err(Undone::Fault(JobFailure::Read));
    };
    if is_at(rt, alloc, &opened, real)? {
        Ok(())
    } else {
        Err(unread(alloc, "/proc does not say which files are open")?)
    }
}

// Whether a path leads into a folder. Both are without links.
fn is_in(path: &PathBuf, folder: &PathBuf) -> bool
    ensures { IsTrue result ↔ PathStartsWith (path_buf_bytes path.now) (path_buf_bytes folder.now) }
{
    path.starts_with(folder.as_str())
}

fn unread(alloc: Global, why: &str) -> Result<Undone, AllocError> {
    Ok(Undone::Explained(JobFailure::Read, String::from_str(alloc, why)?))
}

// ---- Files that are never sent

/// A file or a folder of the system: its device, and its number there.
#[derive(Clone, Copy, Debug, PartialEq, Eq)]
struct Node {
    device: u64,
    number: u64,
}

impl Node {
    fn of(found: &Metadata) -> Node {
        Node {
            device: found.dev(),
            number: found.ino(),
        }
    }

    // What is at a path, whatever links lead there.
    fn at(rt: &HostRuntime, path: &str) -> Option<Node> {
        match fs::metadata(rt, path) {
            Ok(found) => Some(Node::of(&found)),
            Err(_) => None,
        }
    }
}

/// A file that is never sent: what was found first at its path, and what is found there now.
#[derive(Drop)]
struct Withheld {
    path: String,
    first: Option<Node>,
}

impl Withheld {
    fn at(rt: &HostRuntime, path: String) -> Withheld {
        let first = Node::at(rt, path.as_str());
        Withheld { path, first }
    }

    // Whether a file is the one that was found there first, or is now.
    fn is(&mut self, rt: &HostRuntime, node: Node) -> bool {
        let now = Node::at(rt, self.path.as_str());
        if self.first.is_none() {
            self.first = now;
        }
        self.first == Some(node) || now == Some(node)
    }
}

// ---- A folder that is served

/// A folder of the system whose files are served. No contract can say what is in it.
#[derive(Drop)]
pub struct SystemSite<'a> {
    rt: &'a HostRuntime,
    folder: String,
    // The office's file, and its log.
    office: Withheld,
    log: Withheld,
}

impl<'a> SystemSite<'a> {
    /// The folder at this place, once the office is open.
    pub fn of(rt: &'a HostRuntime, place: &SitePlace) -> Result<Self, AllocError> {
        let alloc = rt.alloc();
        let folder = place.folder.clone()?;
        let office = place.office.clone()?;
        let log = format!(in alloc; "{office}-wal")?;
        Ok(SystemSite {
            rt,
            folder,
            office: Withheld::at(rt, office),
            log: Withheld::at(rt, log),
        })
    }

    fn is_withheld(&mut self, node: Node) -> bool {
        let is_office = self.office.is(self.rt, node);
        let is_log = self.log.is(self.rt, node);
        is_office || is_log
    }

    // An open file as it is sent, unless it is withheld.
    fn sent(&mut self, file: fs::File) -> Option<SiteFile<fs::File>> {
        let found = file.metadata().ok()?;
        if self.is_withheld(Node::of(&found)) {
            return None;
        }
        Some(SiteFile {
            length: usize::try_from(found.len()).ok()?,
            content: file,
        })
    }
}

impl SiteFiles for SystemSite<'_> {
    type Content = fs::File;

    fn find(&mut self, path: &str) -> Result<Option<SiteFile<fs::File>>, AllocError> {
        let rt = self.rt;
        let Some(file) = open_below(rt, rt.alloc(), self.folder.as_str(), path)? else {
            return Ok(None);
        };
        Ok(self.sent(file))
    }
}

// Opens the file at a path in the folder at a path, if a file is there that may be sent and no link leads
// from the folder to it.
fn open_below(
    rt: &HostRuntime,
    alloc: Global,
    folder: &str,
    path: &str,
) -> Result<Option<fs::File>, AllocError> {
    let Some(top) = path_in(fs::canonicalize(rt, folder))? else {
        return Ok(None);
    };
    let above = top.as_str();
    let place = format!(in alloc; "{above}/{path}")?;
    let Some(file) = open_sendable(rt, place.as_str()) else {
        return Ok(None);
    };
    if is_at(rt, alloc, &file, place.as_str())? {
        Ok(Some(file))
    } else {
        Ok(None)
    }
}

// The path that the system says, if it says one and there was memory for it.
fn path_in(said: io::Result<PathBuf>) -> Result<Option<PathBuf>, AllocError> {
    match said {
        Ok(path) => Ok(Some(path)),
        Err(error) => match error.kind() {
            ErrorKind::OutOfMemory => Err(AllocError),
            _ => Ok(None),
        },
    }
}

// Opens the file at a path if it may be sent. What is there is asked before it is opened, since a named pipe
// would be waited for, and once more afterwards.
fn open_sendable(rt: &HostRuntime, place: &str) -> Option<fs::File> {
    if !is_sendable(&fs::symlink_metadata(rt, place).ok()?) {
        return None;
    }
    let file = fs::open(rt, place).ok()?;
    if is_sendable(&file.metadata().ok()?) {
        Some(file)
    } else {
        None
    }
}

// Whether a file is a regular one that is not too long.
fn is_sendable(found: &Metadata) -> bool
    ensures { IsTrue result ↔ (IsFile (file_type found.now) × (metadata_len found.now ≤ 268435456)) }
{
    found.is_file() && found.len() <= MOST_BYTES
}

// Whether an open file is the one at this path and no link led to it: the system says the path by which it
// was found, after all links.
fn is_at(
    rt: &HostRuntime,
    alloc: Global,
    file: &fs::File,
    place: &str,
) -> Result<bool, AllocError> {
    let number = file.as_raw_fd();
    let entry = format!(in alloc; "{OPEN_FILES}/{number}")?;
    match path_in(fs::read_link(rt, entry.as_str()))? {
        Some(found) => Ok(is_path_of(found.as_str(), place)),
        None => Ok(false),
    }
}

// Whether this is what the system says of an open file at a path, which may have been replaced meanwhile.
fn is_path_of(found: &str, place: &str) -> bool {
    match found.strip_prefix(place) {
        Some(rest) => rest.is_empty() || rest == REPLACED,
        None => false,
    }
}
