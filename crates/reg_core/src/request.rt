//! Requests: what was asked for, under which name, and where it stands.
ghost use Rattle.std.specs.Prelude.{◌≡◌, true, IfOk};
ghost use Rattle.reg_core.specs.Request.{has_state_form, read_state, state_word, word_of};

use crate::ask::Ask;
use crate::text::{Account, Ref, Text};
use reg_blocks::block::Block;
use reg_ranges::formed::Formed;
use std::alloc::AllocError;

/// What an approved request was given.
#[derive(Clone, Copy, Debug, PartialEq, Eq)]
pub enum Given {
    /// This value of the registry that the ask names.
    Value(u32),
    /// This block.
    Block(Block),
}

/// Where a request stands.
#[derive(Drop, PartialEq, Eq)]
pub enum State {
    /// It waits for the office, and holds nothing.
    Pending,
    /// It was given what it asks for.
    Approved(Given),
    /// The office gives it nothing, for this reason.
    Declined(Text),
    /// Its applicant takes it back.
    Withdrawn,
}

/// Where a request stands, by the bare word: not what it was given, nor why it is given nothing.
#[derive(Clone, Copy, Debug, PartialEq, Eq)]
pub enum StateWord {
    Pending,
    Approved,
    Declined,
    Withdrawn,
}

impl StateWord {
    /// All four.
    pub const ALL: [StateWord; 4] = [
        StateWord::Pending,
        StateWord::Approved,
        StateWord::Declined,
        StateWord::Withdrawn,
    ];

    /// The word by which messages and tables name the state.
    pub fn word(&self) -> &'static str
        ensures { result.now ≡ state_word self.now }
    {
        match self {
            StateWord::Pending => "pending",
            StateWord::Approved => "approved",
            StateWord::Declined => "declined",
            StateWord::Withdrawn => "withdrawn",
        }
    }

    /// The state of this word, compared exactly.
    pub fn read(word: &[u8]) -> Option<StateWord>
        ensures { result ≡ read_state word.now }
    {
        Self::ALL
            .iter()
            .copied()
            .find(|state| state.word().as_bytes() == word)
    }
}

/// When a request came, and when it was decided: approved, declined or withdrawn. Moments are in
/// seconds since 1970-01-01T00:00:00Z, and none where no act says so.
#[derive(Clone, Copy)]
pub struct RequestTimes {
    pub account: Account,
    pub reference: Ref,
    pub submitted: Option<u64>,
    /// None while the request waits.
    pub decided: Option<u64>,
}

/// A request without its name: what is asked for, and where it stands.
#[derive(Drop, PartialEq, Eq)]
pub struct Case {
    pub ask: Ask,
    pub state: State,
}

/// A request. Its name is its applicant's account and the reference that the applicant chose.
#[derive(Drop, PartialEq, Eq)]
pub struct Request {
    pub account: Account,
    pub reference: Ref,
    pub ask: Ask,
    pub state: State,
}

impl Clone for State {
    ghost use Rattle.std.specs.Prelude.{◌≡◌};

    ghost is_clone = { λ state copy. copy ≡ state };

    fn clone(&self) -> Result<Self, AllocError> {
        match self {
            State::Pending => Ok(State::Pending),
            State::Approved(given) => Ok(State::Approved(*given)),
            State::Declined(reason) => Ok(State::Declined(reason.copy()?)),
            State::Withdrawn => Ok(State::Withdrawn),
        }
    }
}

impl Formed for State {
    ghost use Rattle.reg_core.specs.Request.{has_state_form};

    ghost has_form = { has_state_form };

    #[tactic(auto, using(std::proofs::lemmas::Bool::Decides::nat_tests))]
    fn formed(&self) {
        match self {
            State::Approved(Given::Value(value)) => {
                let _value = *value;
            }
            State::Approved(Given::Block(block)) => {
                let _prefix = block.prefix();
            }
            State::Declined(reason) => reason.formed(),
            State::Pending | State::Withdrawn => {}
        }
    }
}

impl State {
    /// An equal state.
    pub fn copy(&self) -> Result<Self, AllocError>
        ensures equal { IfOk result (λ s. s ≡ self.now) }
        ensures form { has_state_form self.now ≡ true }
    {
        self.formed();
        self.clone()
    }

    /// The bare word.
    pub fn word(&self) -> StateWord
        ensures { result ≡ word_of self.now }
    {
        match self {
            State::Pending => StateWord::Pending,
            State::Approved(_) => StateWord::Approved,
            State::Declined(_) => StateWord::Declined,
            State::Withdrawn => StateWord::Withdrawn,
        }
    }
}

impl Clone for Case {
    ghost use Rattle.std.specs.Prelude.{◌≡◌};

    ghost is_clone = { λ c copy. copy ≡ c };

    fn clone(&self) -> Result<Self, AllocError> {
        let ask = self.ask.copy()?;
        match self.state.copy() {
            Ok(state) => Ok(Case { ask, state }),
            Err(error) => {
                drop(ask);
                Err(error)
            }
        }
    }
}

impl Case {
    /// An equal case.
    pub fn copy(&self) -> Result<Self, AllocError>
        ensures { IfOk result (λ f. f ≡ self.now) }
    {
        self.clone()
    }
}

impl Clone for Request {
    ghost use Rattle.std.specs.Prelude.{◌≡◌};

    ghost is_clone = { λ request copy. copy ≡ request };

    fn clone(&self) -> Result<Self, AllocError> {
        let ask = self.ask.copy()?;
        match self.state.copy() {
            Ok(state) => Ok(Request {
                account: self.account,
                reference: self.reference,
                ask,
                state,
            }),
            Err(error) => {
                drop(ask);
                Err(error)
            }
        }
    }
}

impl Request {
    /// An equal request.
    pub fn copy(&self) -> Result<Self, AllocError>
        ensures { IfOk result (λ r. r ≡ self.now) }
    {
        self.clone()
    }
}
