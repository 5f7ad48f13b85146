//! The first thing that an early allocation lacks (RFC 7120, section 2).
ghost use Rattle.std.specs.Prelude.{◌≡◌};
ghost use Rattle.reg_ranges.specs.Requirements.{first_item};
ghost use Rattle.reg_early.specs.EarlyRequirements.{early_unmet, is_eligible};

use crate::evidence::EarlyEvidence;
use reg_ranges::evidence::Item;
use reg_ranges::policy::Policy;

/// The first item that an early allocation under the policy asks for and that is not met, in the
/// order policy, draft, stable, interest, chair, director; or none where all are met. Policy is met
/// under RFC Required, IETF Review and Standards Action, and under Specification Required where the
/// specification will be published as an RFC.
pub fn early_missing(policy: Policy, evidence: &EarlyEvidence) -> Option<Item>
    ensures { result ≡ first_item (early_unmet policy evidence.now) }
{
    if !is_eligible(policy, evidence.will_be_rfc) {
        return Some(Item::Policy);
    }
    if evidence.draft.is_none() {
        return Some(Item::Draft);
    }
    if !evidence.stable {
        return Some(Item::Stable);
    }
    if !evidence.interest {
        return Some(Item::Interest);
    }
    if evidence.chair.is_none() {
        return Some(Item::Chair);
    }
    if evidence.director.is_none() {
        return Some(Item::Director);
    }
    None
}

fn is_eligible(policy: Policy, will_be_rfc: bool) -> bool
    ensures { result ≡ is_eligible policy will_be_rfc }
{
    match policy {
        Policy::RfcRequired | Policy::IetfReview | Policy::StandardsAction => true,
        Policy::SpecificationRequired => will_be_rfc,
        Policy::PrivateUse
        | Policy::ExperimentalUse
        | Policy::HierarchicalAllocation
        | Policy::FirstComeFirstServed
        | Policy::ExpertReview
        | Policy::IesgApproval => false,
    }
}
