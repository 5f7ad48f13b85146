//! Why requests could not be read or answers not be written.
ghost use Rattle.std.specs.Prelude.{◌≡◌};
ghost use Rattle.reg_wire.specs.declared.wire_fault.WireFault.TheVariants.{Memory};

use std::alloc::{AllocError, AllocFailed};

/// Why reading requests and writing answers ended before its time.
#[derive(Clone, Copy, Debug, PartialEq, Eq)]
pub enum WireFault {
    /// A read failed, or a script was read by as many reads as `run` makes.
    Read,
    /// A write failed or took nothing, after so many bytes.
    Write(usize),
    /// There was no memory.
    Memory,
}

impl From<AllocError> for WireFault {
    ghost from_gives = { λ _ fault. fault ≡ Memory };

    fn from(_error: AllocError) -> WireFault {
        WireFault::Memory
    }
}
