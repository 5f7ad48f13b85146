//! Why a command comes to nothing.
use reg_core::decide::Deny;
use reg_core::refusal::Refusal;
use reg_keeper::keeper::Fault;
use std::alloc::AllocError;

/// Why a command comes to nothing. Nothing has changed then.
#[derive(Drop)]
pub enum Stop {
    /// It is refused.
    Refused(Refusal),
    /// The keeper gave no answer, or there was no memory.
    Fault(Fault),
}

impl From<Refusal> for Stop {
    ghost use Rattle.std.specs.Prelude.{◌≡◌};
    ghost use Rattle.reg_registers.specs.declared.stop.Stop.TheVariants.{Refused};

    ghost from_gives = { λ refusal stop. stop ≡ Refused refusal };

    fn from(refusal: Refusal) -> Stop {
        Stop::Refused(refusal)
    }
}

impl From<Fault> for Stop {
    ghost use Rattle.std.specs.Prelude.{◌≡◌};
    ghost use Rattle.reg_registers.specs.declared.stop.Stop.TheVariants.{Fault as OfKeeper};

    ghost from_gives = { λ fault stop. stop ≡ OfKeeper fault };

    fn from(fault: Fault) -> Stop {
        Stop::Fault(fault)
    }
}

impl From<AllocError> for Stop {
    ghost use Rattle.std.specs.Prelude.{◌≡◌};
    ghost use Rattle.reg_keeper.specs.declared.keeper.Fault.TheVariants.{Memory};
    ghost use Rattle.reg_registers.specs.declared.stop.Stop.TheVariants.{Fault as OfKeeper};

    ghost from_gives = { λ _ stop. stop ≡ OfKeeper Memory };

    fn from(_error: AllocError) -> Stop {
        Stop::Fault(Fault::Memory)
    }
}

impl From<Deny> for Stop {
    ghost use Rattle.std.specs.Prelude.{◌≡◌};
    ghost use Rattle.reg_registers.specs.Stops.{stop_of};

    ghost from_gives = { λ deny stop. stop ≡ stop_of deny };

    fn from(deny: Deny) -> Stop {
        match deny {
            Deny::Refused(refusal) => Stop::Refused(refusal),
            Deny::Memory => Stop::Fault(Fault::Memory),
        }
    }
}
