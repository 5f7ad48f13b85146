//! Requests as their experts see them.
ghost use Rattle.std.specs.Prelude.{◌≡◌, IfOk};

use crate::advice::Advice;
use crate::ask::Ask;
use crate::request::StateWord;
use crate::text::{Account, Ref};
use std::alloc::AllocError;

/// A request as an expert sees it to whom it is assigned: what is asked for, the bare word of
/// where it stands, and the expert's own advice.
#[derive(Drop, PartialEq, Eq)]
pub struct QueueRow {
    pub account: Account,
    pub reference: Ref,
    pub ask: Ask,
    pub word: StateWord,
    pub advice: Option<Advice>,
}

impl Clone for QueueRow {
    ghost use Rattle.std.specs.Prelude.{◌≡◌};

    ghost is_clone = { λ row copy. copy ≡ row };

    fn clone(&self) -> Result<Self, AllocError> {
        let ask = self.ask.copy()?;
        match self.advice.clone() {
            Ok(advice) => Ok(QueueRow {
                account: self.account,
                reference: self.reference,
                ask,
                word: self.word,
                advice,
            }),
            Err(error) => {
                drop(ask);
                Err(error)
            }
        }
    }
}

impl QueueRow {
    /// An equal row.
    pub fn copy(&self) -> Result<Self, AllocError>
        ensures { IfOk result (λ r. r ≡ self.now) }
    {
        self.clone()
    }
}
