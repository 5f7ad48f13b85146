//! Why no request was read.
ghost use Rattle.std.specs.Prelude.{◌≡◌};
ghost use Rattle.reg_head.specs.declared.unread.Unread.TheVariants.{Refused, Memory};

use crate::malformed::Malformed;
use std::alloc::AllocError;

/// Why no request was read.
#[derive(Clone, Copy, Debug, PartialEq, Eq)]
pub enum Unread {
    /// The bytes are none.
    Refused(Malformed),
    /// A read failed before the request was whole.
    Read,
    /// There was no memory to hold the bytes.
    Memory,
}

impl From<Malformed> for Unread {
    ghost from_gives = { λ why unread. unread ≡ Refused why };

    fn from(why: Malformed) -> Unread {
        Unread::Refused(why)
    }
}

impl From<AllocError> for Unread {
    ghost from_gives = { λ _ unread. unread ≡ Memory };

    fn from(_error: AllocError) -> Unread {
        Unread::Memory
    }
}
