//! The least free value of a registry under a policy, by the list of the values that are taken.
//!
//! This call is for users of this library. The program does not run it: an office keeps what is
//! taken as runs of values, by `reg_vacancies`.
ghost use Rattle.std.specs.Prelude.{◌≡◌, ◌≤◌, Contains, filter, nat_le};
ghost use Rattle.std.specs.List.Sorted.{IsStrictlyIncreasing};
ghost use Rattle.reg_ranges.specs.FreeValues.{IsLeastFree, IsLeastGap, IsLeastIn, least_value};

use crate::policy::{Policy, Treatment};
use crate::range::Range;
use crate::table::RangeTable;

/// The least value that lies in a range under the policy and is not taken, or none where there is
/// no such value. The values in `taken` ascend. The time is that of one walk over them and one
/// search in them for each range, however many values the registry has.
pub fn least_free(table: &RangeTable, policy: Policy, taken: &[u32]) -> Option<u32>
    requires { IsStrictlyIncreasing taken.now }
    ensures least { IsLeastFree table.now policy taken.now result }
    ensures value { result ≡ least_value table.now policy taken.now }
{
    for range in table.ranges() {
        if let Some(value) = least_in(range, policy, taken) {
            return Some(value);
        }
    }
    None
}

fn least_in(range: &Range, policy: Policy, taken: &[u32]) -> Option<u32>
    requires order { range.now.lo ≤ range.now.hi }
    requires ascending { IsStrictlyIncreasing taken.now }
    ensures { IsLeastIn range.now policy (Contains taken.now) result }
{
    if range.treatment != Treatment::Under(policy) {
        return None;
    }
    least_gap(range.lo, range.hi, taken)
}

fn least_gap(lo: u32, hi: u32, taken: &[u32]) -> Option<u32>
    requires order { lo ≤ hi }
    requires ascending { IsStrictlyIncreasing taken.now }
    ensures { IsLeastGap lo hi taken.now result }
{
    let mut candidate = lo;
    for value in values_from(taken, lo) {
        if *value != candidate {
            return Some(candidate);
        }
        if candidate == hi {
            return None;
        }
        candidate += 1;
    }
    Some(candidate)
}

fn values_from(taken: &[u32], lo: u32) -> &[u32]
    requires { IsStrictlyIncreasing taken.now }
    ensures { result.now ≡ filter (nat_le lo) taken.now }
{
    let start = taken.partition_point(|value| *value < lo);
    &taken[start..]
}
