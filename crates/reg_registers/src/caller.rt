//! Who gives a command.
ghost use Rattle.std.specs.Prelude.{◌≡◌};
ghost use Rattle.reg_registers.specs.Caller.{stamp_by};

use reg_core::capability::Cap;
use reg_core::journal::{Actor, Stamp};
use reg_core::text::{Digest, first_digits};
use reg_early::day::Day;

/// A caller who is admitted, with the moment of its command.
#[derive(Clone, Copy)]
pub struct Caller {
    /// The digest of the caller's token.
    pub digest: Digest,
    /// The capability at that digest.
    pub capability: Cap,
    /// The moment, in seconds since 1970-01-01T00:00:00Z.
    pub moment: u64,
    /// The day of the moment.
    pub day: Day,
}

impl Caller {
    /// When its command is given, and by whom.
    pub fn stamp(&self) -> Stamp
        ensures { result ≡ stamp_by self.now }
    {
        let actor = Actor {
            account: self.capability.account,
            token: first_digits(&self.digest),
        };
        Stamp {
            moment: Some(self.moment),
            by: Some(actor),
        }
    }
}
