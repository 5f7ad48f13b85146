//! Published folders that are read.
ghost use Rattle.std.specs.Prelude.{◌≡◌, IfOk, map, option_map, string_bytes};

use reg_source::bounded::read_up_to;
use reg_source::regular::{is_longer, open_regular};
use reg_source::unpublished::Unpublished;
use std::alloc::{AllocError, Global};
use std::fs::{Files, read_dir};
use std::io::{Error, ErrorKind};

/// How many bytes a file has at most.
const MOST_BYTES: usize = 268_435_456;

/// Why a file was not read, or the names of files.
#[derive(Clone, Copy, Debug, PartialEq, Eq)]
pub enum UnreadFile {
    /// There was no memory.
    Memory,
    /// It cannot be read.
    Read,
    /// It has more than 268,435,456 bytes.
    Large,
}

impl From<AllocError> for UnreadFile {
    fn from(_error: AllocError) -> UnreadFile {
        UnreadFile::Memory
    }
}

/// A folder whose files are read.
pub trait Reads {
    ghost use Rattle.std.specs.Prelude.{ℕ, List, [], Option, None};

    /// Whether it is known which files are in it.
    ghost Tells: { Type 0 } = { ⊥ };

    /// The bytes of the file at a place in it, if there is one.
    ghost held: { Self → List ℕ → Option (List ℕ) } = { λ _ _. None };

    /// The names of the files in its folder `registries`.
    ghost listed: { Self → List (List ℕ) } = { λ _. [] };

    /// The bytes of the file at a place in it; none where there is no file.
    fn read(&self, alloc: Global, place: &str) -> Result<Option<Vec<u8>>, UnreadFile>
        ensures { Tells → IfOk result
            (λ found. option_map (λ v. v.items) found ≡ held self.now place.now) };

    /// The names of the files in its folder `registries`, and of the folders there; none where there is no
    /// such folder. A name that is no UTF-8 cannot be read.
    fn names(&self, alloc: Global) -> Result<Vec<String>, UnreadFile>
        ensures { Tells → IfOk result
            (λ files. map string_bytes files.items ≡ listed self.now) };
}

/// A folder of the file system. Nothing is known of it: no contract can say what a disk holds. Where there
/// is no such folder, no file is in it.
#[derive(Drop)]
pub struct SystemFolder<'a, H> {
    /// Its runtime.
    pub rt: &'a H,
    /// Its path.
    pub path: &'a str,
}

impl<H: Files + AllocGlobal + Clone + Drop> Reads for SystemFolder<'_, H> {
    fn read(&self, alloc: Global, place: &str) -> Result<Option<Vec<u8>>, UnreadFile> {
        let folder = self.path;
        let path = format!(in alloc; "{folder}/{place}")?;
        if is_longer(self.rt, path.as_str(), MOST_BYTES) {
            return Err(UnreadFile::Large);
        }
        match open_regular(self.rt, path.as_str()) {
            Ok(mut file) => {
                let bytes = read_up_to(alloc, MOST_BYTES, &mut file);
                drop(file);
                Ok(Some(bytes.map_err(reading_failed)?))
            }
            Err(error) => match error.kind() {
                ErrorKind::NotFound => Ok(None),
                _ => Err(not_opened(error)),
            },
        }
    }

    fn names(&self, alloc: Global) -> Result<Vec<String>, UnreadFile> {
        let folder = self.path;
        let path = format!(in alloc; "{folder}/registries")?;
        let mut names = Vec::new(alloc);
        let entries = match read_dir(self.rt, path.as_str()) {
            Ok(entries) => entries,
            Err(error) => match error.kind() {
                ErrorKind::NotFound => return Ok(names),
                _ => return Err(not_opened(error)),
            },
        };
        for entry in entries {
            let entry = entry.map_err(not_opened)?;
            let name = String::from_str(alloc, entry.file_name())?;
            names.push(name).map_err(AllocError::from)?;
        }
        Ok(names)
    }
}

// Why a file could not be opened, or a folder not be listed.
fn not_opened(error: Error) -> UnreadFile {
    match error.kind() {
        ErrorKind::OutOfMemory => UnreadFile::Memory,
        _ => UnreadFile::Read,
    }
}

// Why reading failed.
fn reading_failed(why: Unpublished) -> UnreadFile {
    match why {
        Unpublished::Memory => UnreadFile::Memory,
        Unpublished::Large => UnreadFile::Large,
        _ => UnreadFile::Read,
    }
}
