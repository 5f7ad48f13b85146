//! What a policy asks for before a value is assigned under it (RFC 8126 section 4).
ghost use Rattle.std.specs.Prelude.{◌≡◌, find, not};
ghost use Rattle.reg_ranges.specs.Requirements.{asked_items, first_item, is_expert_policy, is_met, unmet};

use crate::evidence::{Evidence, Item, Stream, Track};
use crate::policy::Policy;

/// The first item of evidence that the policy asks for and that is not met, or none where all are
/// met. Under Private Use, Experimental Use and Hierarchical Allocation no single values are
/// assigned, so `Item::Policy` is never met there.
pub fn missing(policy: Policy, evidence: &Evidence) -> Option<Item>
    ensures { result ≡ first_item (unmet policy evidence.now) }
{
    first_unmet(evidence, asked_items(policy))
}

/// Whether a designated expert has to approve (RFC 8126 sections 4.5 and 4.6).
pub fn needs_expert(policy: Policy) -> bool
    ensures { result ≡ is_expert_policy policy }
{
    matches!(policy, Policy::ExpertReview | Policy::SpecificationRequired)
}

fn asked_items(policy: Policy) -> &'static [Item]
    ensures { result.now ≡ asked_items policy }
{
    match policy {
        Policy::PrivateUse | Policy::ExperimentalUse | Policy::HierarchicalAllocation => {
            &[Item::Policy]
        }
        Policy::FirstComeFirstServed | Policy::ExpertReview => &[Item::Contact],
        Policy::SpecificationRequired => &[Item::Contact, Item::Specification],
        Policy::RfcRequired => &[Item::Contact, Item::Rfc],
        Policy::IetfReview => &[Item::Contact, Item::Rfc, Item::Stream],
        Policy::StandardsAction => &[Item::Contact, Item::Rfc, Item::Stream, Item::Track],
        Policy::IesgApproval => &[Item::Contact, Item::Minute],
    }
}

fn first_unmet(evidence: &Evidence, items: &[Item]) -> Option<Item>
    ensures { result ≡ find (λ i. not (is_met evidence.now i)) items.now }
{
    items.iter().copied().find(|item| !is_met(evidence, *item))
}

fn is_met(evidence: &Evidence, item: Item) -> bool
    ensures { result ≡ is_met evidence.now item }
{
    match item {
        Item::Contact => evidence.contact.is_some(),
        Item::Specification => evidence.spec.is_some(),
        Item::Rfc => evidence.rfc.is_some(),
        Item::Stream => evidence.rfc.is_some_and(|rfc| rfc.stream() == Stream::Ietf),
        Item::Track => evidence
            .rfc
            .is_some_and(|rfc| matches!(rfc.track(), Track::Standards | Track::Bcp)),
        Item::Minute => evidence.minute.is_some(),
        // No evidence for an assignment meets these.
        Item::Policy | Item::Draft | Item::Stable | Item::Interest | Item::Chair | Item::Director =>
            false,
    }
}
