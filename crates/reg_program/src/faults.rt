//! Why a job was not done.
use reg_keeper::keeper::Fault;
use reg_office::FoundFault;
use reg_wire::wire_fault::WireFault;
use std::alloc::{AllocError, AllocFailed};
use std::fmt;
use std::fmt::{Display, Formatter, Write};

/// Why a job was not done.
#[derive(Debug, Drop)]
pub enum Undone {
    /// It met a fault.
    Fault(JobFailure),
    /// It met a fault, and this is what is known of it, for people.
    Explained(JobFailure, String),
    /// The office refused the command, or the words of the job spell none. This is the status and
    /// the body of the answer, with a space between.
    Refused(Vec<u8>),
}

/// A fault that a job met.
#[derive(Clone, Copy, Debug, PartialEq, Eq)]
pub enum JobFailure {
    /// There was no memory.
    Memory,
    /// The store could not be read or written.
    Store,
    /// Input could not be read, or there was no end to it.
    Read,
    /// Output could not be written.
    Write,
    /// Another job has the file open.
    Busy,
    /// The file has no office, or one that is not well kept.
    NotOurs,
    /// The file has an office of this other version.
    Version(i64),
    /// The clerk's token is ill formed.
    Token,
    /// The clerk's token has another capability.
    Exists,
    /// The port cannot be listened on.
    Port,
    /// The range file has more than 65,536 bytes, or the file of notes more than 1,048,576.
    Large,
    /// The register has no header of a register.
    Header,
    /// The row of this number of the register is at fault.
    Row(usize),
    /// The history in a folder is at fault, or it differs from what is published.
    History,
    /// The file of notes is at fault.
    Notes,
    /// No act of the journal has the digest that was noted.
    Journal,
}

impl From<JobFailure> for Undone {
    ghost use Rattle.std.specs.Prelude.{◌≡◌};
    ghost use Rattle.reg_program.specs.declared.faults.Undone.TheVariants.{Fault as OfFault};

    ghost from_gives = { λ failure undone. undone ≡ OfFault failure };

    fn from(failure: JobFailure) -> Undone {
        Undone::Fault(failure)
    }
}

impl From<AllocError> for Undone {
    ghost use Rattle.std.specs.Prelude.{◌≡◌};
    ghost use Rattle.reg_program.specs.declared.faults.JobFailure.TheVariants.{Memory};
    ghost use Rattle.reg_program.specs.declared.faults.Undone.TheVariants.{Fault as OfFault};

    ghost from_gives = { λ _ undone. undone ≡ OfFault Memory };

    fn from(_error: AllocError) -> Undone {
        Undone::Fault(JobFailure::Memory)
    }
}

impl<T: Drop> From<AllocFailed<T>> for Undone {
    ghost use Rattle.std.specs.Prelude.{◌≡◌};
    ghost use Rattle.reg_program.specs.declared.faults.JobFailure.TheVariants.{Memory};
    ghost use Rattle.reg_program.specs.declared.faults.Undone.TheVariants.{Fault as OfFault};

    ghost from_gives = { λ _ undone. undone ≡ OfFault Memory };

    fn from(_failed: AllocFailed<T>) -> Undone {
        Undone::Fault(JobFailure::Memory)
    }
}

impl From<AllocError> for JobFailure {
    ghost use Rattle.std.specs.Prelude.{◌≡◌};
    ghost use Rattle.reg_program.specs.declared.faults.JobFailure.TheVariants.{Memory};

    ghost from_gives = { λ _ failure. failure ≡ Memory };

    fn from(_error: AllocError) -> JobFailure {
        JobFailure::Memory
    }
}

impl From<Fault> for Undone {
    ghost use Rattle.std.specs.Prelude.{◌≡◌};
    ghost use Rattle.reg_program.specs.Undone.{failure_of};
    ghost use Rattle.reg_program.specs.declared.faults.Undone.TheVariants.{Fault as OfFault};

    ghost from_gives = { λ fault undone. undone ≡ OfFault (failure_of fault) };

    fn from(fault: Fault) -> Undone {
        Undone::Fault(JobFailure::from(fault))
    }
}

impl From<FoundFault> for Undone {
    ghost use Rattle.std.specs.Prelude.{◌≡◌};
    ghost use Rattle.reg_program.specs.Undone.{found_failure};
    ghost use Rattle.reg_program.specs.declared.faults.Undone.TheVariants.{Fault as OfFault};

    ghost from_gives = { λ fault undone. undone ≡ OfFault (found_failure fault) };

    fn from(fault: FoundFault) -> Undone {
        Undone::Fault(match fault {
            FoundFault::Token => JobFailure::Token,
            FoundFault::Exists => JobFailure::Exists,
            FoundFault::Fault(fault) => JobFailure::from(fault),
        })
    }
}

impl From<WireFault> for Undone {
    ghost use Rattle.std.specs.Prelude.{◌≡◌};
    ghost use Rattle.reg_program.specs.Undone.{script_failure};
    ghost use Rattle.reg_program.specs.declared.faults.Undone.TheVariants.{Fault as OfFault};

    ghost from_gives = { λ fault undone. undone ≡ OfFault (script_failure fault) };

    fn from(fault: WireFault) -> Undone {
        Undone::Fault(match fault {
            WireFault::Read => JobFailure::Read,
            WireFault::Write(_) => JobFailure::Write,
            WireFault::Memory => JobFailure::Memory,
        })
    }
}

impl From<Fault> for JobFailure {
    ghost use Rattle.std.specs.Prelude.{◌≡◌};
    ghost use Rattle.reg_program.specs.Undone.{failure_of};

    ghost from_gives = { λ fault failure. failure ≡ failure_of fault };

    fn from(fault: Fault) -> JobFailure {
        match fault {
            Fault::Memory => JobFailure::Memory,
            Fault::Store => JobFailure::Store,
        }
    }
}

impl Display for JobFailure {
    fn fmt<W: Write>(&self, f: &mut Formatter<W>) -> fmt::Result {
        match self {
            JobFailure::Memory => f.write_str("memory"),
            JobFailure::Store => f.write_str("store"),
            JobFailure::Read => f.write_str("read"),
            JobFailure::Write => f.write_str("write"),
            JobFailure::Busy => f.write_str("busy"),
            JobFailure::NotOurs => f.write_str("not ours"),
            JobFailure::Version(version) => write!(f, "version {version}"),
            JobFailure::Token => f.write_str("token"),
            JobFailure::Exists => f.write_str("exists"),
            JobFailure::Port => f.write_str("port"),
            JobFailure::Large => f.write_str("large"),
            JobFailure::Header => f.write_str("header"),
            JobFailure::Row(number) => write!(f, "row {number}"),
            JobFailure::History => f.write_str("history"),
            JobFailure::Notes => f.write_str("notes"),
            JobFailure::Journal => f.write_str("journal"),
        }
    }
}
