//! A clerk opens a registry.
ghost use Rattle.std.specs.Option.{option_copied};
ghost use Rattle.reg_core.specs.Rules.{Follows, define_rule};

use reg_core::change::Change;
use reg_core::decide::{Decision, Deny};
use reg_core::refusal::Refusal;
use reg_core::text::Name;
use reg_ranges::table::RangeTable;

/// Decides a definition over the registry that has the name already: the same ranges again change
/// nothing, and others are refused as `Exists`.
pub fn decide_define(
    existing: Option<&RangeTable>,
    name: &Name,
    table: &RangeTable,
) -> Result<Decision, Deny>
    ensures { Follows (define_rule (option_copied existing.entry) name.now table.now) result }
{
    match existing {
        Some(old) if old == table => Ok(Decision::Same),
        Some(_) => Err(Deny::Refused(Refusal::Exists)),
        None => Ok(Decision::Make(Change::Define(*name, table.copy()?))),
    }
}
