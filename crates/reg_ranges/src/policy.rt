//! Registration policies and how the values of a range are treated.
ghost use Rattle.std.specs.Prelude.{◌≡◌};
ghost use Rattle.reg_ranges.specs.Words.{policy_word, read_policy, treatment_word, read_treatment};

/// The well-known registration policies, in the order of RFC 8126 section 4.
#[derive(Clone, Copy, Debug, PartialEq, Eq)]
pub enum Policy {
    /// RFC 8126 section 4.1.
    PrivateUse,
    /// RFC 8126 section 4.2.
    ExperimentalUse,
    /// RFC 8126 section 4.3.
    HierarchicalAllocation,
    /// RFC 8126 section 4.4.
    FirstComeFirstServed,
    /// RFC 8126 section 4.5.
    ExpertReview,
    /// RFC 8126 section 4.6.
    SpecificationRequired,
    /// RFC 8126 section 4.7.
    RfcRequired,
    /// RFC 8126 section 4.8.
    IetfReview,
    /// RFC 8126 section 4.9.
    StandardsAction,
    /// RFC 8126 section 4.10.
    IesgApproval,
}

/// How the values of a range are treated: assigned under a policy, or reserved and so not available
/// (RFC 8126 section 6).
#[derive(Clone, Copy, Debug, PartialEq, Eq)]
pub enum Treatment {
    Under(Policy),
    Reserved,
}

impl Policy {
    /// All ten, in the order of RFC 8126 section 4.
    pub const ALL: [Policy; 10] = [
        Policy::PrivateUse,
        Policy::ExperimentalUse,
        Policy::HierarchicalAllocation,
        Policy::FirstComeFirstServed,
        Policy::ExpertReview,
        Policy::SpecificationRequired,
        Policy::RfcRequired,
        Policy::IetfReview,
        Policy::StandardsAction,
        Policy::IesgApproval,
    ];

    /// The word by which files and messages name the policy.
    pub fn word(&self) -> &'static str
        ensures { result.now ≡ policy_word self.now }
    {
        match self {
            Policy::PrivateUse => "private-use",
            Policy::ExperimentalUse => "experimental-use",
            Policy::HierarchicalAllocation => "hierarchical-allocation",
            Policy::FirstComeFirstServed => "first-come-first-served",
            Policy::ExpertReview => "expert-review",
            Policy::SpecificationRequired => "specification-required",
            Policy::RfcRequired => "rfc-required",
            Policy::IetfReview => "ietf-review",
            Policy::StandardsAction => "standards-action",
            Policy::IesgApproval => "iesg-approval",
        }
    }

    /// The policy of this word, compared exactly.
    pub fn read(word: &[u8]) -> Option<Policy>
        ensures { result ≡ read_policy word.now }
    {
        Self::ALL
            .iter()
            .copied()
            .find(|policy| policy.word().as_bytes() == word)
    }
}

impl Treatment {
    /// The policy's word, or `reserved`.
    pub fn word(&self) -> &'static str
        ensures { result.now ≡ treatment_word self.now }
    {
        match self {
            Treatment::Under(policy) => policy.word(),
            Treatment::Reserved => "reserved",
        }
    }

    /// The treatment of this word, compared exactly.
    pub fn read(word: &[u8]) -> Option<Treatment>
        ensures { result ≡ read_treatment word.now }
    {
        if word == b"reserved".as_slice() {
            return Some(Treatment::Reserved);
        }
        Policy::read(word).map(Treatment::Under)
    }
}
