//! What the values of a registry are counted as.
ghost use Rattle.std.specs.Prelude.{◌≡◌, ◌≤◌, length, IfOk};
ghost use Rattle.reg_ranges.specs.Tables.{most_ranges};
ghost use Rattle.reg_site.specs.Summary.{all_left, left, left_as, rest_of, same_rest, same_status, share, shares, summary, with_status};

use reg_core::entry::PageEntry;
use reg_core::page::{Page, PageEntries};
use reg_core::rows::Rows;
use reg_core::text::Name;
use reg_early::term::Status;
use reg_print::listing::rows::{Run, closed_status};
use reg_ranges::policy::Treatment;
use reg_ranges::range::Range;
use reg_ranges::table::RangeTable;
use std::alloc::{AllocError, Global};

/// How the values of a range stand that have no entry.
#[derive(Clone, Copy, Debug, PartialEq, Eq)]
pub enum Rest {
    /// They can be assigned.
    Free,
    /// They are for use without an assignment, or for others to assign (RFC 8126 sections 4.1 to 4.3).
    SetAside,
    /// They are not available.
    Reserved,
}

/// A range of a registry, and how many of its values have an entry.
#[derive(Clone, Copy, Debug)]
pub struct RangeShare {
    pub values: Run,
    pub treatment: Treatment,
    pub used: u64,
}

/// What is told of a registry beside others: its ranges, and how many values stand how.
#[derive(Drop)]
pub struct Summary {
    pub name: Name,
    /// The largest value.
    pub max: u32,
    /// The ranges, in order.
    pub shares: Rows<RangeShare>,
    /// Values with an entry for good.
    pub assigned: u64,
    /// Values with an early allocation that stands.
    pub temporary: u64,
    /// Values with an early allocation that does not stand any more.
    pub expired: u64,
    /// Values that can be assigned.
    pub free: u64,
    /// Values without an entry, under a policy by which none are assigned one by one.
    pub set_aside: u64,
    /// Values that are not available.
    pub reserved: u64,
}

impl Summary {
    /// What is told of a registry beside others. Only want of memory is an error.
    pub fn of(alloc: Global, page: &Page) -> Result<Summary, AllocError>
        ensures { IfOk result (λ s. s ≡ summary page.now) }
    {
        let shares = shares(alloc, page)?;
        let entries = page.entries.as_slice();
        Ok(Summary {
            name: page.name,
            max: page.table.max(),
            assigned: with_status(entries, Status::Assigned),
            temporary: with_status(entries, Status::Temporary),
            expired: with_status(entries, Status::Expired),
            free: all_left(shares.as_slice(), Rest::Free),
            set_aside: all_left(shares.as_slice(), Rest::SetAside),
            reserved: all_left(shares.as_slice(), Rest::Reserved),
            shares: Rows::from_vec(shares),
        })
    }
}

// The ranges with their counts, at most 64.
fn shares(alloc: Global, page: &Page) -> Result<Vec<RangeShare>, AllocError>
    ensures shares { IfOk result (λ v. v.items ≡ shares page.now) }
    ensures few { IfOk result (λ v. length v.items ≤ most_ranges) }
{
    let mut shares = Vec::new(alloc);
    for range in page.table.ranges() {
        shares.push(share_of(&page.entries, range))?;
    }
    Ok(shares)
}

fn share_of(entries: &PageEntries, range: &Range) -> RangeShare
    ensures { result ≡ share entries.now range.now }
{
    RangeShare {
        values: Run {
            lo: range.lo,
            hi: range.hi,
        },
        treatment: range.treatment,
        used: entries.in_range(range).len() as u64,
    }
}

// How many entries have a status.
fn with_status(entries: &[PageEntry], status: Status) -> u64
    ensures { result ≡ with_status status entries.now }
{
    let count = entries
        .iter()
        .filter(|entry| same_status(entry.status, status))
        .count();
    count as u64
}

fn same_status(a: Status, b: Status) -> bool
    ensures { result ≡ same_status a b }
{
    matches!(
        (a, b),
        (Status::Assigned, Status::Assigned)
            | (Status::Temporary, Status::Temporary)
            | (Status::Expired, Status::Expired)
    )
}

// How many values of these ranges have no entry and stand so.
fn all_left(shares: &[RangeShare], rest: Rest) -> u64
    requires { length shares.now ≤ most_ranges }
    ensures { result ≡ all_left rest shares.now }
{
    let mut all = 0;
    for share in shares {
        all += left_as(share, rest);
    }
    all
}

fn left_as(share: &RangeShare, rest: Rest) -> u64
    ensures value { result ≡ left_as rest share.now }
    ensures bound { result ≤ 4294967296 }
{
    if same_rest(rest_of(share.treatment), rest) {
        share.left()
    } else {
        0
    }
}

fn same_rest(a: Rest, b: Rest) -> bool
    ensures { result ≡ same_rest a b }
{
    matches!(
        (a, b),
        (Rest::Free, Rest::Free)
            | (Rest::SetAside, Rest::SetAside)
            | (Rest::Reserved, Rest::Reserved)
    )
}

impl RangeShare {
    /// How many of its values have no entry.
    pub fn left(&self) -> u64
        ensures value { result ≡ left self.now }
        ensures bound { result ≤ 4294967296 }
    {
        let values = (u64::from(self.values.hi) + 1).saturating_sub(u64::from(self.values.lo));
        values.saturating_sub(self.used)
    }
}

/// How the values of a range stand that have no entry, by its treatment.
pub fn rest_of(treatment: Treatment) -> Rest
    ensures { result ≡ rest_of treatment }
{
    match (treatment, closed_status(treatment)) {
        (Treatment::Reserved, _) => Rest::Reserved,
        (Treatment::Under(_), Some(_)) => Rest::SetAside,
        (Treatment::Under(_), None) => Rest::Free,
    }
}
