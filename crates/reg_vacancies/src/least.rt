//! The least free value of a registry under a policy, by the set of the values that are taken.
ghost use Rattle.std.specs.Prelude.{◌≡◌, ◌↔◌, ℕ, List, Contains, IsTrue};
ghost use Rattle.reg_vacancies.specs.Runs.{has};
ghost use Rattle.reg_ranges.specs.FreeValues.{IsLeastFreeWhere, IsLeastGapWhere, IsLeastIn, least_value};

use crate::runs::Runs;
use reg_ranges::policy::{Policy, Treatment};
use reg_ranges::range::Range;
use reg_ranges::table::RangeTable;

/// The least value that lies in a range under the policy and is not taken, or none where there is
/// no such value. The time is that of a look-up for each range, however many values are taken.
pub fn least_free_of(table: &RangeTable, policy: Policy, taken: &Runs) -> Option<u32>
    ensures least { IsLeastFreeWhere table.now policy (λ n. IsTrue (has taken.now n)) result }
    ensures value { (values : List ℕ) → ((n : ℕ) → IsTrue (has taken.now n) ↔ Contains values n)
        → result ≡ least_value table.now policy values }
{
    for range in table.ranges() {
        if let Some(value) = least_in(range, policy, taken) {
            return Some(value);
        }
    }
    None
}

fn least_in(range: &Range, policy: Policy, taken: &Runs) -> Option<u32>
    ensures { IsLeastIn range.now policy (λ n. IsTrue (has taken.now n)) result }
{
    if range.treatment == Treatment::Under(policy) {
        least_gap(range.lo, range.hi, taken)
    } else {
        None
    }
}

fn least_gap(lo: u32, hi: u32, taken: &Runs) -> Option<u32>
    ensures { IsLeastGapWhere lo hi (λ n. IsTrue (has taken.now n)) result }
{
    match taken.next_free(lo) {
        Some(value) if value <= hi => Some(value),
        _ => None,
    }
}
