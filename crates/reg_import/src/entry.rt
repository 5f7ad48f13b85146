//! The entries that a register says.
use reg_core::text::{Account, Text};
use reg_early::day::Day;
use reg_early::evidence::EarlyEvidence;
use reg_ranges::evidence::Evidence;
use reg_ranges::policy::Policy;

/// An entry that a row of a register says, with what its policy asks for.
#[derive(Drop)]
pub struct ListedEntry {
    pub value: u32,
    /// What the value is called.
    pub label: Text,
    /// The policy of the value's range.
    pub policy: Policy,
    /// The day on which it was approved.
    pub first: Day,
    /// Whose it is.
    pub assignee: Account,
    /// How long it stands, and on which evidence.
    pub standing: ListedStanding,
}

/// How long an entry stands, and on which evidence.
#[derive(Drop)]
pub enum ListedStanding {
    /// For good.
    ForGood(Evidence),
    /// As an early allocation (RFC 7120).
    Early(EarlyStanding),
}

/// How long an early allocation stands, and on which evidence.
#[derive(Drop)]
pub struct EarlyStanding {
    /// The day from which it no longer stands.
    pub expires: Day,
    /// The day on which it was renewed; none where it expires a year after its first day.
    pub renewal: Option<Day>,
    pub evidence: EarlyEvidence,
    /// Whether a clerk holds it.
    pub held: bool,
}

/// How long an entry stands.
#[derive(Clone, Copy, Debug, PartialEq, Eq)]
pub enum EntryKind {
    /// For good.
    ForGood,
    /// As an early allocation.
    Early,
}
