//! Policies by the names that RFC 8126 gives them.
ghost use Rattle.std.specs.Prelude.{◌≡◌};
ghost use Rattle.reg_site.specs.Policy.{named_policy, policy_name, treatment_name};

use reg_ranges::policy::{Policy, Treatment};

/// The name of a policy (RFC 8126 section 4).
fn policy_name(policy: Policy) -> &'static str
    ensures { result.now ≡ policy_name policy }
{
    match policy {
        Policy::PrivateUse => "Private Use",
        Policy::ExperimentalUse => "Experimental Use",
        Policy::HierarchicalAllocation => "Hierarchical Allocation",
        Policy::FirstComeFirstServed => "First Come First Served",
        Policy::ExpertReview => "Expert Review",
        Policy::SpecificationRequired => "Specification Required",
        Policy::RfcRequired => "RFC Required",
        Policy::IetfReview => "IETF Review",
        Policy::StandardsAction => "Standards Action",
        Policy::IesgApproval => "IESG Approval",
    }
}

/// The name of a policy, or the word for values that are not available (RFC 8126 section 6).
pub(crate) fn treatment_name(treatment: Treatment) -> &'static str
    ensures { result.now ≡ treatment_name treatment }
{
    match treatment {
        Treatment::Under(policy) => policy_name(policy),
        Treatment::Reserved => "Reserved",
    }
}

/// The name of a policy; nothing where there is none.
pub(crate) fn named_policy(policy: Option<Policy>) -> &'static str
    ensures { result.now ≡ named_policy policy }
{
    match policy {
        Some(policy) => policy_name(policy),
        None => "",
    }
}
