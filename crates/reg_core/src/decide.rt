//! What is decided of a command.
use crate::change::Change;
use crate::refusal::Refusal;
use std::alloc::AllocError;

/// What an accepted command comes to.
#[derive(Drop)]
pub enum Decision {
    /// The change is to be made.
    Make(Change),
    /// All is there already as the command wants it.
    Same,
}

/// Why there is no decision.
#[derive(Drop)]
pub enum Deny {
    /// The command is refused.
    Refused(Refusal),
    /// There is no memory for the change.
    Memory,
}

impl From<AllocError> for Deny {
    ghost use Rattle.std.specs.Prelude.{◌≡◌};
    ghost use Rattle.reg_core.specs.declared.decide.Deny.TheVariants.{Memory};

    ghost from_gives = { λ _ deny. deny ≡ Memory };

    fn from(_error: AllocError) -> Deny {
        Deny::Memory
    }
}

impl From<Refusal> for Deny {
    ghost use Rattle.std.specs.Prelude.{◌≡◌};
    ghost use Rattle.reg_core.specs.declared.decide.Deny.TheVariants.{Refused};

    ghost from_gives = { λ refusal deny. deny ≡ Refused refusal };

    fn from(refusal: Refusal) -> Deny {
        Deny::Refused(refusal)
    }
}
