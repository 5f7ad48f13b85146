//! What the office answers.
ghost use Rattle.std.specs.Prelude.{◌≡◌};
ghost use Rattle.reg_core.specs.Laws.{is_refused as refused};

use crate::refusal::Refusal;
use crate::told::Told;

/// What the office answers to a command.
#[derive(Drop)]
pub enum Reply {
    /// The command was accepted.
    Accepted(Told),
    /// The command was refused.
    Refused(Refusal),
}

impl Reply {
    /// Whether the command was refused.
    pub fn is_refused(&self) -> bool
        ensures { result ≡ refused self.now }
    {
        matches!(self, Reply::Refused(_))
    }
}
