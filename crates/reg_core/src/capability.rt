//! Capabilities: what the holder of a token may do, and until when.
ghost use Rattle.std.specs.Prelude.{◌≡◌, ◌≤◌};
ghost use Rattle.reg_core.specs.Capability.{kind_word, last_until, read_kind, read_until};

use crate::text::{Account, Digest};
use reg_ranges::formed::Formed;
use std::marker::Model;

/// Whom a capability is for.
#[derive(Clone, Copy, Debug, PartialEq, Eq)]
pub enum Kind {
    Applicant,
    Expert,
    Clerk,
}

impl Kind {
    /// All three.
    pub const ALL: [Kind; 3] = [Kind::Applicant, Kind::Expert, Kind::Clerk];

    /// The word by which messages and tables name the kind.
    pub fn word(&self) -> &'static str
        ensures { result.now ≡ kind_word self.now }
    {
        match self {
            Kind::Applicant => "applicant",
            Kind::Expert => "expert",
            Kind::Clerk => "clerk",
        }
    }

    /// The kind of this word, compared exactly.
    pub fn read(word: &[u8]) -> Option<Kind>
        ensures { result ≡ read_kind word.now }
    {
        Self::ALL
            .iter()
            .copied()
            .find(|kind| kind.word().as_bytes() == word)
    }
}

/// The moment at which a capability ends: 0 to 32,503,680,000 seconds since 1970-01-01T00:00:00Z,
/// the last of them the first moment of the year 3000.
#[derive(Clone, Copy, Debug, PartialEq, Eq)]
pub struct Until {
    seconds: u64,
}

impl Model for Until {
    ghost use Rattle.std.specs.Prelude.{ℕ, ◌≤◌};

    ghost Value = { ℕ };

    ghost view = { λ u. u.seconds };

    ghost invariant = { λ u. u.seconds ≤ 32503680000 };

    ghost inverse = { λ n. record { seconds = n } };
}

impl Until {
    /// The last moment at which a capability can end.
    pub const LAST: u64 = 32_503_680_000;

    /// The end at this many seconds since 1970-01-01T00:00:00Z; none above the last.
    pub fn from_seconds(seconds: u64) -> Option<Self>
        ensures { result ≡ read_until seconds }
    {
        if seconds <= Self::LAST {
            Some(Until { seconds })
        } else {
            None
        }
    }

    /// The seconds since 1970-01-01T00:00:00Z.
    pub fn seconds(self) -> u64
        ensures value { result ≡ self }
        ensures bound { self ≤ last_until }
    {
        self.seconds
    }
}

/// What the holder of a token may do, valid while the moment is before `until`.
#[derive(Clone, Copy, PartialEq, Eq)]
pub struct Cap {
    pub account: Account,
    pub kind: Kind,
    pub until: Until,
}

impl Formed for Cap {
    ghost use Rattle.reg_core.specs.Capability.{has_cap_form};

    ghost has_form = { has_cap_form };

    #[tactic(auto, using(std::proofs::lemmas::Bool::Decides::nat_tests))]
    fn formed(&self) {
        self.account.formed();
        let _seconds = self.until.seconds();
    }
}

/// A capability, with the digest of the token that has it.
#[derive(Clone, Copy, PartialEq, Eq)]
pub struct CapRow {
    pub digest: Digest,
    pub cap: Cap,
}
