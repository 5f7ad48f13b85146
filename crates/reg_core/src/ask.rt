//! What an applicant asks for.
ghost use Rattle.std.specs.Prelude.{◌≡◌, true, IfOk};
ghost use Rattle.reg_ranges.specs.Sameness.{same_evidence};
ghost use Rattle.reg_early.specs.Sameness.{same_early_evidence};
ghost use Rattle.reg_core.specs.Ask.{has_ask_form, same_ask, same_block, same_code, same_early, same_permanence, same_renewal, same_size, same_want};

use crate::text::{Name, Text};
use reg_blocks::size::Size;
use reg_early::evidence::EarlyEvidence;
use reg_ranges::evidence::Evidence;
use reg_ranges::formed::Formed;
use reg_ranges::policy::Policy;
use std::alloc::AllocError;

/// What is wanted of a registry.
#[derive(Clone, Copy, Debug, PartialEq, Eq)]
pub enum Want {
    /// This value.
    Value(u32),
    /// The least value under this policy that has no entry.
    Least(Policy),
}

/// An ask for a value of a registry (RFC 8126 section 4).
#[derive(Clone, Drop, PartialEq, Eq)]
pub struct CodeAsk {
    /// The registry whose value is wanted.
    pub registry: Name,
    /// Which of its values is wanted.
    pub want: Want,
    /// What the value is to be called in the registry.
    pub label: Text,
    /// What the applicant shows for it.
    pub evidence: Evidence,
}

/// An ask for an early allocation of a value (RFC 7120 section 2).
#[derive(Clone, Drop, PartialEq, Eq)]
pub struct EarlyAsk {
    /// The registry whose value is wanted.
    pub registry: Name,
    /// Which of its values is wanted.
    pub want: Want,
    /// What the value is to be called in the registry.
    pub label: Text,
    /// What the applicant shows for it.
    pub evidence: EarlyEvidence,
}

/// An ask for another year of an early allocation (RFC 7120 section 3.3).
#[derive(Clone, Drop, PartialEq, Eq)]
pub struct RenewalAsk {
    /// The registry of the value.
    pub registry: Name,
    /// The value that was allocated early.
    pub value: u32,
    /// What the applicant shows for it, as for the allocation itself.
    pub evidence: EarlyEvidence,
    /// The minute of the IESG by which it may be renewed again, if there is one.
    pub iesg: Option<Text>,
}

/// An ask that a value that was allocated early be assigned for good.
#[derive(Clone, Drop, PartialEq, Eq)]
pub struct PermanenceAsk {
    /// The registry of the value.
    pub registry: Name,
    /// The value that was allocated early.
    pub value: u32,
    /// What the applicant shows for it, as for a value that is assigned at once.
    pub evidence: Evidence,
}

/// An ask for a block of EUI-48 addresses.
#[derive(Clone, Drop, PartialEq, Eq)]
pub struct BlockAsk {
    /// How large the block is to be.
    pub size: Size,
    /// The organization that is to be listed with the block.
    pub organization: Text,
    /// Where that organization is.
    pub address: Text,
}

/// What a request asks for.
#[derive(Clone, PartialEq, Eq)]
pub enum Ask {
    Code(CodeAsk),
    Early(EarlyAsk),
    Renew(RenewalAsk),
    Permanent(PermanenceAsk),
    Block(BlockAsk),
}

// Not derived: what a crate above owes where it lets an ask go is proved here, once.
impl Drop for Ask {
    fn drop(self) {
        match self {
            Ask::Code(_) | Ask::Early(_) | Ask::Renew(_) | Ask::Permanent(_) | Ask::Block(_) => {}
        }
    }
}

impl Formed for Want {
    ghost use Rattle.reg_core.specs.Ask.{has_want_form};

    ghost has_form = { has_want_form };

    #[tactic(auto, using(std::proofs::lemmas::Bool::Decides::nat_tests))]
    fn formed(&self) {
        if let Want::Value(value) = self {
            let _value = *value;
        }
    }
}

impl Formed for CodeAsk {
    ghost use Rattle.reg_core.specs.Ask.{has_code_form};

    ghost has_form = { has_code_form };

    fn formed(&self) {
        self.registry.formed();
        self.want.formed();
        self.label.formed();
        self.evidence.formed();
    }
}

impl Formed for EarlyAsk {
    ghost use Rattle.reg_core.specs.Ask.{has_early_ask_form};

    ghost has_form = { has_early_ask_form };

    fn formed(&self) {
        self.registry.formed();
        self.want.formed();
        self.label.formed();
        self.evidence.formed();
    }
}

impl Formed for RenewalAsk {
    ghost use Rattle.reg_core.specs.Ask.{has_renewal_form};

    ghost has_form = { has_renewal_form };

    #[tactic(auto, using(std::proofs::lemmas::Bool::Decides::nat_tests))]
    fn formed(&self) {
        self.registry.formed();
        let _value = self.value;
        self.evidence.formed();
        self.iesg.formed();
    }
}

impl Formed for PermanenceAsk {
    ghost use Rattle.reg_core.specs.Ask.{has_permanence_form};

    ghost has_form = { has_permanence_form };

    #[tactic(auto, using(std::proofs::lemmas::Bool::Decides::nat_tests))]
    fn formed(&self) {
        self.registry.formed();
        let _value = self.value;
        self.evidence.formed();
    }
}

impl Formed for BlockAsk {
    ghost use Rattle.reg_core.specs.Ask.{has_block_form};

    ghost has_form = { has_block_form };

    fn formed(&self) {
        self.organization.formed();
        self.address.formed();
    }
}

impl Formed for Ask {
    ghost use Rattle.reg_ranges.specs.Sameness.{same_evidence};
    ghost use Rattle.reg_core.specs.Ask.{has_ask_form};

    ghost has_form = { has_ask_form };

    fn formed(&self) {
        match self {
            Ask::Code(code) => code.formed(),
            Ask::Early(early) => early.formed(),
            Ask::Renew(renewal) => renewal.formed(),
            Ask::Permanent(permanence) => permanence.formed(),
            Ask::Block(block) => block.formed(),
        }
    }
}

impl Ask {
    /// Whether it is the same ask.
    pub fn is_same(&self, other: &Ask) -> bool
        ensures { result ≡ same_ask self.now other.now }
    {
        match (self, other) {
            (Ask::Code(code), Ask::Code(other)) => is_same_code(code, other),
            (Ask::Early(early), Ask::Early(other)) => is_same_early(early, other),
            (Ask::Renew(renewal), Ask::Renew(other)) => is_same_renewal(renewal, other),
            (Ask::Permanent(settled), Ask::Permanent(other)) => is_same_permanence(settled, other),
            (Ask::Block(block), Ask::Block(other)) => is_same_block(block, other),
            _ => false,
        }
    }

    /// An equal ask.
    pub fn copy(&self) -> Result<Self, AllocError>
        ensures equal { IfOk result (λ a. a ≡ self.now) }
        ensures form { IfOk result (λ _. has_ask_form self.now ≡ true) }
    {
        self.formed();
        self.clone()
    }
}

fn is_same_code(code: &CodeAsk, other: &CodeAsk) -> bool
    ensures { result ≡ same_code code.now other.now }
{
    code.registry == other.registry
        && is_same_want(code.want, other.want)
        && code.label == other.label
        && is_same_evidence(&code.evidence, &other.evidence)
}

fn is_same_early(early: &EarlyAsk, other: &EarlyAsk) -> bool
    ensures { result ≡ same_early early.now other.now }
{
    early.registry == other.registry
        && is_same_want(early.want, other.want)
        && early.label == other.label
        && is_same_early_evidence(&early.evidence, &other.evidence)
}

fn is_same_renewal(renewal: &RenewalAsk, other: &RenewalAsk) -> bool
    ensures { result ≡ same_renewal renewal.now other.now }
{
    renewal.registry == other.registry
        && renewal.value == other.value
        && is_same_early_evidence(&renewal.evidence, &other.evidence)
        && renewal.iesg == other.iesg
}

fn is_same_permanence(settled: &PermanenceAsk, other: &PermanenceAsk) -> bool
    ensures { result ≡ same_permanence settled.now other.now }
{
    settled.registry == other.registry
        && settled.value == other.value
        && is_same_evidence(&settled.evidence, &other.evidence)
}

fn is_same_block(block: &BlockAsk, other: &BlockAsk) -> bool
    ensures { result ≡ same_block block.now other.now }
{
    is_same_size(block.size, other.size)
        && block.organization == other.organization
        && block.address == other.address
}

fn is_same_size(size: Size, other: Size) -> bool
    ensures { result ≡ same_size size other }
{
    size == other
}

fn is_same_want(want: Want, other: Want) -> bool
    ensures { result ≡ same_want want other }
{
    want == other
}

fn is_same_evidence(evidence: &Evidence, other: &Evidence) -> bool
    ensures { result ≡ same_evidence evidence.now other.now }
{
    *evidence == *other
}

fn is_same_early_evidence(evidence: &EarlyEvidence, other: &EarlyEvidence) -> bool
    ensures { result ≡ same_early_evidence evidence.now other.now }
{
    *evidence == *other
}
