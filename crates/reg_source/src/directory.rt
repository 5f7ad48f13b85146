//! Folders of a file system.
ghost use Rattle.std.specs.Prelude.{◌≡◌, ◌++◌, IfOk, codes, string_bytes};
ghost use Rattle.reg_source.specs.Disk.{LeavesIn, PutsIn, names_of};
ghost use Rattle.reg_source.specs.Names.{names_by};

use crate::bounded::read_up_to;
use crate::disk::{Disk, SystemDisk};
use crate::folder::{Folder, MOST_READ_BYTES};
use crate::modes::{make_folder, make_folders};
use crate::replacement::{Names, put};
use crate::unpublished::{Unpublished, unwritten};
use reg_pages::portions::Portions;
use reg_site::files::File;
use std::alloc::{AllocError, Global};
use std::fs::Files;

/// A folder of a disk. The bytes of a file are compared with those of the file that is there. From the
/// first other byte on it is written beside its place, under the name `.new`, with all bytes before;
/// then it is synchronised, takes its place by a renaming, and the folder is synchronised.
#[derive(Drop)]
pub struct Directory<D> {
    disk: D,
    alloc: Global,
    path: String,
}

impl<'a, H: Files> Directory<SystemDisk<'a, H>> {
    /// The folder at a path, with a folder `registries` in it. Both are made where they are not
    /// there, for everybody to read. `Write` where they cannot be, the path is empty, or a link stands in the
    /// place of `registries`.
    pub fn open(rt: &'a H, alloc: Global, path: &str) -> Result<Self, Unpublished> {
        if path.is_empty() {
            return Err(Unpublished::Write);
        }
        make_folders(rt, path).map_err(unwritten)?;
        let inner = format!(in alloc; "{path}/registries")?;
        make_folder(rt, inner.as_str()).map_err(unwritten)?;
        let path = String::from_str(alloc, path)?;
        Ok(Directory {
            disk: SystemDisk { rt },
            alloc,
            path,
        })
    }
}

impl<D: Disk> Directory<D> {
    // The names of a file of a site in it. Only want of memory is an error.
    fn names(&self, file: File) -> Result<Names, AllocError>
        ensures { IfOk result
            (λ names. names_by names ≡ names_of (string_bytes self.now.path) file) }
    {
        Names::of(self.alloc, self.path.as_str(), file)
    }
}

impl<D: Disk> Folder for Directory<D> {
    ghost Puts = { λ old new place bytes. (new.path ≡ old.path) × (D.Tells
        → PutsIn D.held D.done (string_bytes old.path) old.disk new.disk place bytes) };

    ghost Leaves = { λ old new place bytes. (new.path ≡ old.path) × (D.Tells
        → LeavesIn D.done (string_bytes old.path) old.disk new.disk place bytes) };

    ghost Tells = { D.Tells };

    ghost held = { λ directory place.
        D.found directory.disk (string_bytes directory.path ++ (codes "/" ++ place)) };

    fn read(&self, alloc: Global, file: File) -> Result<Option<Vec<u8>>, Unpublished> {
        let names = self.names(file)?;
        match self.disk.find(names.place.as_str())? {
            Some(mut reader) => Ok(Some(read_up_to(alloc, MOST_READ_BYTES, &mut reader)?)),
            None => Ok(None),
        }
    }

    fn publish<P: Portions>(&mut self, file: File, bytes: &mut P) -> Result<[u8; 32], Unpublished> {
        let names = self.names(file)?;
        match put(&mut self.disk, self.alloc, &names, bytes) {
            Ok(hash) => Ok(hash),
            Err(why) => {
                self.disk.remove(names.beside.as_str());
                Err(why)
            }
        }
    }
}
