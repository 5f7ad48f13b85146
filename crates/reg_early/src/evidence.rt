//! What an early allocation asks for (RFC 7120, section 2).
ghost use Rattle.std.specs.Prelude.{◌≡◌, IfOk};

use reg_ranges::formed::Formed;
use reg_ranges::text::Text;
use std::alloc::AllocError;

/// What an applicant shows for an early allocation.
#[derive(Clone, Debug, Drop, PartialEq, Eq)]
pub struct EarlyEvidence {
    /// The Internet-Draft that describes the value.
    pub draft: Option<Text>,
    /// Whether the specification is stable.
    pub stable: bool,
    /// Whether there is sufficient interest, or danger of contention.
    pub interest: bool,
    /// The approval of the working group's chairs.
    pub chair: Option<Text>,
    /// The approval of an area director.
    pub director: Option<Text>,
    /// Whether the specification will be published as an RFC.
    pub will_be_rfc: bool,
}

impl EarlyEvidence {
    /// Equal evidence. Only want of memory is an error.
    pub fn copy(&self) -> Result<EarlyEvidence, AllocError>
        ensures { IfOk result (λ evidence. evidence ≡ self.now) }
    {
        self.clone()
    }
}

impl Formed for EarlyEvidence {
    ghost use Rattle.reg_early.specs.Forms.{has_early_form};

    ghost has_form = { has_early_form };

    fn formed(&self) {
        self.draft.formed();
        self.chair.formed();
        self.director.formed();
    }
}
