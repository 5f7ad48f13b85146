//! What experts say of requests.
ghost use Rattle.std.specs.Prelude.{◌≡◌, true, IfOk};
ghost use Rattle.reg_core.specs.Advice.{has_advice_form, read_verdict, verdict_word};

use crate::text::{Account, Text};
use reg_ranges::formed::Formed;
use std::alloc::AllocError;

/// Whether an expert is for a request.
#[derive(Clone, Copy, Debug, PartialEq, Eq)]
pub enum Verdict {
    For,
    Against,
}

/// What an expert says of a request.
#[derive(Clone, Drop, PartialEq, Eq)]
pub struct Advice {
    pub verdict: Verdict,
    pub text: Text,
}

/// An advice with its expert.
#[derive(Clone, Drop, PartialEq, Eq)]
pub struct Opinion {
    pub expert: Account,
    pub advice: Advice,
}

impl Verdict {
    /// Both.
    pub const ALL: [Verdict; 2] = [Verdict::For, Verdict::Against];

    /// The word by which messages name the verdict.
    pub fn word(&self) -> &'static str
        ensures { result.now ≡ verdict_word self.now }
    {
        match self {
            Verdict::For => "for",
            Verdict::Against => "against",
        }
    }

    /// The verdict of this word, compared exactly.
    pub fn read(word: &[u8]) -> Option<Verdict>
        ensures { result ≡ read_verdict word.now }
    {
        Self::ALL
            .iter()
            .copied()
            .find(|verdict| verdict.word().as_bytes() == word)
    }
}

impl Formed for Advice {
    ghost use Rattle.reg_core.specs.Advice.{has_advice_form};

    ghost has_form = { has_advice_form };

    fn formed(&self) {
        self.text.formed();
    }
}

impl Advice {
    /// An equal advice.
    pub fn copy(&self) -> Result<Self, AllocError>
        ensures equal { IfOk result (λ a. a ≡ self.now) }
        ensures form { IfOk result (λ _. has_advice_form self.now ≡ true) }
    {
        self.formed();
        self.clone()
    }
}

impl Opinion {
    /// An equal opinion.
    pub fn copy(&self) -> Result<Self, AllocError>
        ensures { IfOk result (λ o. o ≡ self.now) }
    {
        self.clone()
    }
}
