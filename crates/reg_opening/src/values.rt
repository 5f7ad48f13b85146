//! Which values of registries may have entries.
ghost use Rattle.std.specs.Prelude.{◌≡◌, is_ok};
ghost use Rattle.std.specs.BTreeMap.{get};
ghost use Rattle.reg_maps.specs.Maps.{text_cmp};
ghost use Rattle.reg_ranges.specs.Requirements.{is_closed_policy};
ghost use Rattle.reg_core.specs.Allowance.{open_policy};
ghost use Rattle.reg_core.specs.WellKept.{is_open_at};

use reg_core::text::Name;
use reg_ranges::policy::{Policy, Treatment};
use reg_ranges::table::RangeTable;
use std::collections::BTreeMap;

/// The ranges of registries by name.
pub type Registries = BTreeMap<Name, RangeTable>;

/// Whether there is a registry of the name, and it has a range at the value whose values are
/// assigned one by one.
pub fn is_open(registries: &Registries, name: &Name, value: u32) -> bool
    ensures { result ≡ is_open_at (get text_cmp registries.now name.now) value }
{
    match registries.get(name) {
        Some(table) => is_assignable(table.treatment(value)),
        None => false,
    }
}

// Whether values that are so treated are assigned one by one.
fn is_assignable(treatment: Option<Treatment>) -> bool
    ensures { result ≡ is_ok (open_policy treatment) }
{
    match treatment {
        Some(Treatment::Under(policy)) => !is_closed(policy),
        Some(Treatment::Reserved) | None => false,
    }
}

// Whether no single values are assigned under the policy (RFC 8126 sections 4.1 to 4.3).
fn is_closed(policy: Policy) -> bool
    ensures { result ≡ is_closed_policy policy }
{
    matches!(
        policy,
        Policy::PrivateUse | Policy::ExperimentalUse | Policy::HierarchicalAllocation
    )
}
