//! Sets of numbers, and the least free value by them, worked by hand.
use crate::tests::libraries::expecting::{expect, expect_at, expect_true};
use reg_ranges::policy::Policy;
use reg_ranges::range_file::read_ranges;
use reg_ranges::table::RangeTable;
use reg_vacancies::least::least_free_of;
use reg_vacancies::runs::Runs;
use std::test::Fail;

#[test]
fn numbers_join_their_neighbours(rt: HostRuntime) -> Result<(), Fail> {
    let mut runs = Runs::new(rt.alloc());
    expect(&rt, runs.next_free(0), Some(0), "of none");
    runs.insert(5)?;
    runs.insert(7)?;
    runs.insert(0)?;
    runs.insert(u32::MAX)?;
    runs.insert(6)?;
    runs.insert(6)?;
    for (from, free) in [
        (0, Some(1)),
        (4, Some(4)),
        (5, Some(8)),
        (7, Some(8)),
        (u32::MAX, None),
    ] {
        expect_at(&rt, runs.next_free(from), free, u64::from(from));
    }
    expect_true(&rt, runs.contains(6), "six");
    expect_true(&rt, !runs.contains(8), "no eight");
    Ok(())
}

// Ranges of two policies, by turns.
const FILE: &[u8] =
    b"lo,hi,treatment,note\n0,1,rfc-required,\n2,3,expert-review,\n4,6,rfc-required,\n";

// Values that are taken in turn, and which is the least then under the policy of the first and the last range.
#[test]
fn least_value_is_free_and_under_its_policy(rt: HostRuntime) -> Result<(), Fail> {
    let table = RangeTable::make(6, read_ranges(rt.alloc(), FILE)?)?;
    let mut taken = Runs::new(rt.alloc());
    let least = least_free_of(&table, Policy::RfcRequired, &taken);
    expect(&rt, least, Some(0), "of all");
    for (value, wanted) in [
        (0, Some(1)),
        (1, Some(4)),
        (5, Some(4)),
        (4, Some(6)),
        (6, None),
    ] {
        taken.insert(value)?;
        let least = least_free_of(&table, Policy::RfcRequired, &taken);
        expect_at(&rt, least, wanted, u64::from(value));
    }
    let least = least_free_of(&table, Policy::ExpertReview, &taken);
    expect(&rt, least, Some(2), "of the range between");
    let least = least_free_of(&table, Policy::IetfReview, &taken);
    expect(&rt, least, None, "of no range");
    Ok(())
}
