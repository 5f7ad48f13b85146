//! What keeps files.
ghost use Rattle.std.specs.Prelude.{◌≡◌, [], ◌∷◌, ◌++◌, Some, IfOk, IfSome, OnOk, option_map};
ghost use Rattle.reg_source.specs.Disk.{Created, DoesOneStep, Kept, NamesKept, Removed, Renamed};

use crate::folder::MOST_READ_BYTES;
use crate::modes::{READ_BY_ALL, create_file};
use crate::regular::{is_longer, open_regular};
use crate::unpublished::{Unpublished, unread, unwritten};
use std::fs;
use std::fs::{Files, OpenFile};
use std::io::{ErrorKind, Read, Write};

/// What keeps files under names. A file is made, written, and kept; then it may take another name.
pub trait Disk {
    ghost use Rattle.std.specs.Prelude.{ℕ, List, [] as nothing, Option, None};
    ghost use Rattle.reg_source.specs.Disk.{DiskStep};

    /// A file that is read.
    type Reader: Read + Drop;

    /// A new file that is written.
    type Draft: Drop;

    /// Whether what follows is known.
    ghost Tells: { Type 0 } = { ⊥ };

    /// The bytes of the file that has a name.
    ghost held: { Self → List ℕ → List ℕ } = { λ _ _. nothing };

    /// The bytes of the file that has a name, if a file has it.
    ghost found: { Self → List ℕ → Option (List ℕ) } = { λ _ _. None };

    /// What was done to it, in turn.
    ghost done: { Self → List DiskStep } = { λ _. nothing };

    /// The name of a new file.
    ghost named: { Self.Draft → List ℕ } = { λ _. nothing };

    /// What was written to a new file.
    ghost written: { Self.Draft → List ℕ } = { λ _. nothing };

    /// The file that has a name, from its beginning on; none where it cannot be read.
    fn open(&self, name: &str) -> Option<Self::Reader>
        ensures { Tells → IfSome result
            (λ reader. Self.Reader.remaining reader ≡ Some (held self.now name.now)) };

    /// The file that has a name, from its beginning on; none where no file has it. `Read` where it cannot
    /// be opened, and `Large` where it is known to have more than 268,435,456 bytes.
    fn find(&self, name: &str) -> Result<Option<Self::Reader>, Unpublished>
        ensures { Tells → IfOk result (λ reader. option_map Self.Reader.remaining reader
            ≡ option_map Some (found self.now name.now)) };

    /// A new file, where none has this name.
    fn create(&mut self, name: &str) -> Result<Self::Draft, Unpublished>
        ensures done { Tells → DoesOneStep result (done self.old) (done self.new) (Created name.now) }
        ensures named { Tells → IfOk result (λ draft. named draft ≡ name.now) }
        ensures empty { Tells → IfOk result (λ draft. written draft ≡ []) };

    /// Adds bytes to the end of a new file.
    fn add(&self, draft: &mut Self::Draft, bytes: &[u8]) -> Result<(), Unpublished>
        ensures named { Tells → named draft.new ≡ named draft.old }
        ensures added { Tells → OnOk result (written draft.new ≡ written draft.old ++ bytes.now) };

    /// Has a new file keep its bytes, also where the machine stops.
    fn keep(&mut self, draft: Self::Draft) -> Result<(), Unpublished>
        ensures { Tells → DoesOneStep result (done self.old) (done self.new)
            (Kept (named draft) (written draft)) };

    /// Gives a file another name, in place of the file that had it.
    fn rename(&mut self, from: &str, to: &str) -> Result<(), Unpublished>
        ensures { Tells → DoesOneStep result (done self.old) (done self.new) (Renamed from.now to.now) };

    /// Has a folder keep the names in it, also where the machine stops.
    fn keep_names(&mut self, folder: &str) -> Result<(), Unpublished>
        ensures { Tells → DoesOneStep result (done self.old) (done self.new) (NamesKept folder.now) };

    /// Takes a name away, if a file has it.
    fn remove(&mut self, name: &str)
        ensures { Tells → done self.new ≡ done self.old ++ Removed name.now ∷ [] };
}

/// The file system of a machine, where everybody reads new files. Nothing is known of it: no contract can say
/// what a disk holds.
#[derive(Drop)]
pub struct SystemDisk<'a, H> {
    /// Its runtime.
    pub rt: &'a H,
}

impl<H: Files> Disk for SystemDisk<'_, H> {
    type Reader = H::File;

    type Draft = H::File;

    fn open(&self, name: &str) -> Option<H::File> {
        open_regular(self.rt, name).ok()
    }

    fn find(&self, name: &str) -> Result<Option<H::File>, Unpublished> {
        if is_longer(self.rt, name, MOST_READ_BYTES) {
            return Err(Unpublished::Large);
        }
        match open_regular(self.rt, name) {
            Ok(file) => Ok(Some(file)),
            Err(error) => match error.kind() {
                ErrorKind::NotFound => Ok(None),
                _ => Err(unread(error)),
            },
        }
    }

    fn create(&mut self, name: &str) -> Result<H::File, Unpublished> {
        create_file(self.rt, name, READ_BY_ALL).map_err(unwritten)
    }

    fn add(&self, draft: &mut H::File, bytes: &[u8]) -> Result<(), Unpublished> {
        draft.write_all(bytes).map_err(unwritten)
    }

    fn keep(&mut self, mut draft: H::File) -> Result<(), Unpublished> {
        draft.flush().map_err(unwritten)?;
        draft.sync_all().map_err(unwritten)
    }

    fn rename(&mut self, from: &str, to: &str) -> Result<(), Unpublished> {
        self.rt.rename(from, to).map_err(unwritten)
    }

    fn keep_names(&mut self, folder: &str) -> Result<(), Unpublished> {
        let folder = fs::open(self.rt, folder).map_err(unwritten)?;
        folder.sync_all().map_err(unwritten)
    }

    fn remove(&mut self, name: &str) {
        let _ = self.rt.remove_file(name);
    }
}
