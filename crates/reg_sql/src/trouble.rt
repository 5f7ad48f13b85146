//! What is wrong with a file in which no office is found, for people.
ghost use Rattle.std.specs.Prelude.{◌≡◌};
ghost use Rattle.reg_sql.specs.Troubles.{opening_fault};

use crate::open::OpenFault;
use reg_keeper::keeper::Fault;
use reg_opening::flaw::{Flaw, RowFlaw};
use std::alloc::AllocError;
use std::fmt;
use std::fmt::{Display, Formatter, Write};

/// What is wrong with a file in which no office is found.
#[derive(Clone, Copy)]
pub enum Trouble {
    /// There is none.
    NoFile,
    /// It cannot be read.
    Unreadable,
    /// It is no regular file with one name.
    Special,
    /// Another has it open.
    Busy,
    /// Another changed it each time that it was copied.
    Unsteady,
    /// A rollback journal stands beside it, which only SQLite can play back.
    Journal,
    /// It is no database, or a damaged one.
    NoDatabase,
    /// A transaction is open on it.
    InTransaction,
    /// The office is of this version, which is not known.
    Version(i64),
    /// It is no office's, for this reason.
    NotOurs(Flaw),
    /// There was no memory.
    Memory,
    /// The copy in memory failed.
    Store,
}

impl Trouble {
    /// How an opening of the file for another job says it.
    pub fn fault(self) -> OpenFault
        ensures { result ≡ opening_fault self }
    {
        match self {
            Trouble::Busy | Trouble::Unsteady => OpenFault::Busy,
            Trouble::Version(version) => OpenFault::Version(version),
            Trouble::Memory => OpenFault::Fault(Fault::Memory),
            Trouble::Store => OpenFault::Fault(Fault::Store),
            _ => OpenFault::NotOurs,
        }
    }
}

impl From<AllocError> for Trouble {
    ghost use Rattle.std.specs.Prelude.{◌≡◌};
    ghost use Rattle.reg_sql.specs.declared.trouble.Trouble.TheVariants.{Memory};

    ghost from_gives = { λ _ trouble. trouble ≡ Memory };

    fn from(_error: AllocError) -> Trouble {
        Trouble::Memory
    }
}

impl From<Fault> for Trouble {
    ghost use Rattle.std.specs.Prelude.{◌≡◌};
    ghost use Rattle.reg_sql.specs.Troubles.{fault_trouble};

    ghost from_gives = { λ fault trouble. trouble ≡ fault_trouble fault };

    fn from(fault: Fault) -> Trouble {
        match fault {
            Fault::Memory => Trouble::Memory,
            Fault::Store => Trouble::Store,
        }
    }
}

impl From<OpenFault> for Trouble {
    ghost use Rattle.std.specs.Prelude.{◌≡◌};
    ghost use Rattle.reg_sql.specs.Troubles.{refused_trouble};

    ghost from_gives = { λ fault trouble. trouble ≡ refused_trouble fault };

    fn from(fault: OpenFault) -> Trouble {
        match fault {
            OpenFault::Version(version) => Trouble::Version(version),
            OpenFault::Busy => Trouble::Busy,
            OpenFault::NotOurs => Trouble::NotOurs(Flaw::Rows(RowFlaw::Unkept)),
            OpenFault::Fault(fault) => Trouble::from(fault),
        }
    }
}

impl Display for Trouble {
    fn fmt<W: Write>(&self, f: &mut Formatter<W>) -> fmt::Result {
        match self {
            Trouble::NoFile => f.write_str("there is no such file"),
            Trouble::Unreadable => f.write_str("the file cannot be read"),
            Trouble::Special => f.write_str("it is not a regular file, or it has a second name"),
            Trouble::Busy => f.write_str("another program has the file open"),
            Trouble::Unsteady => f.write_str(
                "it was changed each time that it was copied: try again",
            ),
            Trouble::Journal => {
                f.write_str("SQLite left a rollback journal beside it: open it with sqlite3 first")
            }
            Trouble::NoDatabase => f.write_str("it is not an SQLite database, or it is damaged"),
            Trouble::InTransaction => f.write_str("a transaction is open on it"),
            Trouble::Version(version) => {
                write!(
                    f,
                    "it is an office of version {version}, which this program does not know"
                )
            }
            Trouble::NotOurs(flaw) => write!(f, "{flaw}"),
            Trouble::Memory => f.write_str("there is not enough memory"),
            Trouble::Store => f.write_str("the copy in memory failed"),
        }
    }
}
