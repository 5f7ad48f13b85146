//! Requests with all that the desk has of them.
ghost use Rattle.std.specs.Prelude.{◌≡◌, IfOk};

use crate::advice::Opinion;
use crate::request::Request;
use crate::rows::Rows;
use crate::text::Account;
use std::alloc::AllocError;

/// A request with the experts to whom it is assigned, and with their advice, by expert.
#[derive(Drop)]
pub struct CaseFile {
    pub request: Request,
    pub experts: Rows<Account>,
    pub advice: Rows<Opinion>,
}

impl Clone for CaseFile {
    ghost use Rattle.std.specs.Prelude.{◌≡◌};

    ghost is_clone = { λ file copy. copy ≡ file };

    fn clone(&self) -> Result<Self, AllocError> {
        let experts = self.experts.clone()?;
        let advice = self.advice.clone()?;
        Ok(CaseFile {
            request: self.request.copy()?,
            experts,
            advice,
        })
    }
}

impl CaseFile {
    /// An equal file.
    pub fn copy(&self) -> Result<Self, AllocError>
        ensures { IfOk result (λ f. f ≡ self.now) }
    {
        self.clone()
    }
}

/// A request that waits, with all that the desk has of it, and with the moment at which it came.
#[derive(Drop)]
pub struct WaitingFile {
    /// In seconds since 1970-01-01T00:00:00Z; none where no act says so.
    pub submitted: Option<u64>,
    pub file: CaseFile,
}
