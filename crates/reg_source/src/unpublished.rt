//! Why nothing more was published.
ghost use Rattle.std.specs.Prelude.{◌≡◌, ◌⊎◌};

use reg_core::refusal::Refusal;
use reg_keeper::keeper::Fault;
use std::alloc::{AllocError, AllocFailed};
use std::io;

/// Why nothing more was published. Each file that was published before is whole.
#[derive(Clone, Copy, Debug, PartialEq, Eq)]
pub enum Unpublished {
    /// There was no memory.
    Memory,
    /// The office's store could not be read.
    Store,
    /// The office refused the command.
    Refused(Refusal),
    /// An office that is served could not be asked, or its answer is none of an office's; or a file in
    /// the folder could not be read.
    Read,
    /// The answer of an office that is served, or a file in the folder, is above the limit.
    Large,
    /// A file could not be written.
    Write,
}

impl From<AllocError> for Unpublished {
    ghost use Rattle.std.specs.Prelude.{◌≡◌};
    ghost use Rattle.reg_source.specs.declared.unpublished.Unpublished.TheVariants.{Memory};

    ghost from_gives = { λ _ why. why ≡ Memory };

    fn from(_error: AllocError) -> Unpublished {
        Unpublished::Memory
    }
}

impl<T: Drop> From<AllocFailed<T>> for Unpublished {
    ghost use Rattle.std.specs.Prelude.{◌≡◌};
    ghost use Rattle.reg_source.specs.declared.unpublished.Unpublished.TheVariants.{Memory};

    ghost from_gives = { λ _ why. why ≡ Memory };

    fn from(_failed: AllocFailed<T>) -> Unpublished {
        Unpublished::Memory
    }
}

impl From<Fault> for Unpublished {
    fn from(fault: Fault) -> Unpublished {
        match fault {
            Fault::Memory => Unpublished::Memory,
            Fault::Store => Unpublished::Store,
        }
    }
}

/// A read that failed, or there was no memory for it.
pub fn unread(error: io::Error) -> Unpublished
    ensures { (result ≡ Unpublished.Memory) ⊎ (result ≡ Unpublished.Read) }
{
    match error.kind() {
        io::ErrorKind::OutOfMemory => Unpublished::Memory,
        _ => Unpublished::Read,
    }
}

/// A write that failed, or there was no memory for it.
pub fn unwritten(error: io::Error) -> Unpublished {
    match error.kind() {
        io::ErrorKind::OutOfMemory => Unpublished::Memory,
        _ => Unpublished::Write,
    }
}
