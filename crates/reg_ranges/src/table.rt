//! The ranges of a registry: a partition of its values.
ghost use Rattle.std.specs.Prelude.{◌≡◌, ◌<◌, ◌↔◌, find, option_map, Some, IfOk, IsOk, IsNone, IsTrue};
ghost use Rattle.std.specs.Result.{result_err};
ghost use Rattle.reg_ranges.specs.FaultTexts.{range_fault_text};
ghost use Rattle.reg_ranges.specs.Faults.{fault_at, first_fault};
ghost use Rattle.reg_ranges.specs.Tables.{IsPartition, lies_in, treatment_of};

use crate::formed::Formed;
use crate::policy::Treatment;
use crate::range::Range;
use std::alloc::AllocError;
use std::error::Error;
use std::fmt;
use std::marker::Model;

/// Why a list of ranges is no partition of 0 to the largest value. Places count from 0.
#[derive(Clone, Copy, Debug, PartialEq, Eq)]
pub enum RangeFault {
    /// There is no range.
    Empty,
    /// There are more than 64.
    TooMany,
    /// The range at this place ends before it begins.
    Order(usize),
    /// The range at this place begins above the first value that none before it has.
    Gap(usize),
    /// The range at this place begins within the one before it, or below that.
    Overlap(usize),
    /// The last range does not end at the largest value.
    End,
}

impl fmt::Display for RangeFault {
    ghost output = { λ f. Some (range_fault_text f) };

    fn fmt<W: fmt::Write>(&self, f: &mut fmt::Formatter<W>) -> fmt::Result {
        match self {
            RangeFault::Empty => write!(f, "empty"),
            RangeFault::TooMany => write!(f, "too-many"),
            RangeFault::Order(i) => write!(f, "order {i}"),
            RangeFault::Gap(i) => write!(f, "gap {i}"),
            RangeFault::Overlap(i) => write!(f, "overlap {i}"),
            RangeFault::End => write!(f, "end"),
        }
    }
}

impl Error for RangeFault {}

/// 1 to 64 ranges in order, such that each value of 0 to a largest one lies in exactly one of them.
#[derive(Clone, Debug)]
pub struct RangeTable {
    max: u32,
    ranges: Vec<Range>,
}

impl Model for RangeTable {
    ghost use Rattle.reg_ranges.specs.Tables.{Table, IsPartition};

    ghost Value = { Table };

    ghost view = { λ t. record { max = t.max; ranges = t.ranges.items } };

    ghost invariant = { λ t. IsPartition (record { max = t.max; ranges = t.ranges.items }) };
}

// Not derived: what a crate above owes where it lets a table go is proved here, once.
impl Drop for RangeTable {
    fn drop(self) {
        let RangeTable { max: _, ranges: _ } = self;
    }
}

impl RangeTable {
    /// The largest number of ranges.
    pub const MOST: usize = 64;

    /// The table of these ranges, or why they are no partition of 0 to `max`: no range, too many,
    /// then the first range at fault, and at last the end.
    pub fn make(max: u32, ranges: Vec<Range>) -> Result<RangeTable, RangeFault>
        ensures table { IfOk result (λ t. t ≡ record { max = max; ranges = ranges.items }) }
        ensures fault { result_err result ≡ first_fault max ranges.items }
        ensures partition { IsOk result
            ↔ IsPartition (record { max = max; ranges = ranges.items }) }
    {
        match first_fault(max, ranges.as_slice()) {
            Some(fault) => Err(fault),
            None => Ok(RangeTable { max, ranges }),
        }
    }

    /// The largest value.
    pub fn max(&self) -> u32
        ensures { result ≡ self.now.max }
    {
        self.max
    }

    /// The ranges in order.
    pub fn ranges(&self) -> &[Range]
        ensures ranges { result.now ≡ self.now.ranges }
        ensures partition { IsPartition self.now }
    {
        self.ranges.as_slice()
    }

    /// The treatment of a value, or none above the largest one.
    pub fn treatment(&self, value: u32) -> Option<Treatment>
        ensures treatment { result ≡ treatment_of self.now value }
        ensures above { IsNone result ↔ (self.now.max < value) }
    {
        treatment_in(self.ranges.as_slice(), value)
    }

    /// An equal table. Only want of memory is an error.
    pub fn copy(&self) -> Result<RangeTable, AllocError>
        ensures { IfOk result (λ c. c ≡ self.now) }
    {
        self.clone()
    }
}

impl Formed for RangeTable {
    ghost use Rattle.reg_ranges.specs.Forms.{has_table_form};

    ghost has_form = { has_table_form };

    fn formed(&self) {
        let _max = self.max();
        self.ranges.formed();
    }
}

impl PartialEq for RangeTable {
    ghost use Rattle.std.specs.Cmp.{partial_equiv_from_equiv};
    ghost use Rattle.reg_ranges.specs.Sameness.{same_table};
    ghost use Rattle.reg_ranges.specs.Equivalences.{tables_equiv};

    ghost eq = { same_table };

    ghost laws = { partial_equiv_from_equiv tables_equiv };

    fn eq(&self, other: &Self) -> bool {
        self.max == other.max && same_ranges(self.ranges.as_slice(), other.ranges.as_slice())
    }
}

impl Eq for RangeTable {
    ghost use Rattle.reg_ranges.specs.Equivalences.{tables_equiv};

    ghost laws = { tables_equiv };
}

fn same_ranges(ranges: &[Range], others: &[Range]) -> bool
    ensures { IsTrue result ↔ (ranges.now ≡ others.now) }
{
    if ranges.len() != others.len() {
        return false;
    }
    for (i, range) in ranges.iter().enumerate() {
        if !same_range(range, &others[i]) {
            return false;
        }
    }
    true
}

fn same_range(range: &Range, other: &Range) -> bool
    ensures { IsTrue result ↔ (range.now ≡ other.now) }
{
    range == other
}

fn treatment_in(ranges: &[Range], value: u32) -> Option<Treatment>
    ensures { result ≡ option_map (λ range. range.treatment) (find (lies_in value) ranges.now) }
{
    ranges
        .iter()
        .find(|range| range.lo <= value && value <= range.hi)
        .map(|range| range.treatment)
}

fn first_fault(max: u32, ranges: &[Range]) -> Option<RangeFault>
    ensures { result ≡ first_fault max ranges.now }
{
    if ranges.is_empty() {
        return Some(RangeFault::Empty);
    }
    if ranges.len() > RangeTable::MOST {
        return Some(RangeFault::TooMany);
    }
    let mut next = 0;
    for (i, range) in ranges.iter().enumerate() {
        if let Some(fault) = fault_at(i, next, range) {
            return Some(fault);
        }
        next = u64::from(range.hi) + 1;
    }
    if next != u64::from(max) + 1 {
        return Some(RangeFault::End);
    }
    None
}

// The fault of the range at place `i`, where `next` is the first value that none before it has.
fn fault_at(i: usize, next: u64, range: &Range) -> Option<RangeFault>
    ensures { result ≡ fault_at i next range.now }
{
    let lo = u64::from(range.lo);
    if range.hi < range.lo {
        Some(RangeFault::Order(i))
    } else if next < lo {
        Some(RangeFault::Gap(i))
    } else if lo < next {
        Some(RangeFault::Overlap(i))
    } else {
        None
    }
}
