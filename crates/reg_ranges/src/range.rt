//! One range of a registry's values.
ghost use Rattle.std.specs.Prelude.{◌≡◌, IfOk};

use crate::formed::Formed;
use crate::policy::Treatment;
use crate::text::Text;
use std::alloc::AllocError;

/// The values `lo` to `hi`, both included, and how they are treated (RFC 8126 section 6).
#[derive(Clone, Debug, Drop, PartialEq, Eq)]
pub struct Range {
    pub lo: u32,
    pub hi: u32,
    pub treatment: Treatment,
    pub note: Option<Text>,
}

impl Range {
    /// An equal range. Only want of memory is an error.
    pub fn copy(&self) -> Result<Range, AllocError>
        ensures { IfOk result (λ c. c ≡ self.now) }
    {
        self.clone()
    }
}

impl Formed for Range {
    ghost use Rattle.reg_ranges.specs.Forms.{has_range_form};

    ghost has_form = { has_range_form };

    fn formed(&self) {
        self.note.formed();
    }
}
