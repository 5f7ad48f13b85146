//! A registry as it is published.
ghost use Rattle.std.specs.Prelude.{◌≡◌, filter, map, nat_le};
ghost use Rattle.std.specs.List.Sorted.{IsNonDecreasingBy, IsStrictlyIncreasing};
ghost use Rattle.reg_ranges.specs.Tables.{lies_in};

use crate::entry::PageEntry;
use crate::text::Name;
use reg_ranges::range::Range;
use reg_ranges::table::RangeTable;
use std::marker::Model;

/// A registry as it is published on a day: its name, its largest value, its ranges, and its
/// entries by value.
#[derive(Drop)]
pub struct Page {
    pub name: Name,
    pub table: RangeTable,
    pub entries: PageEntries,
}

/// The entries of a registry in order of their values, of which no two are equal.
#[derive(Drop)]
pub struct PageEntries {
    items: Vec<PageEntry>,
}

impl Model for PageEntries {
    ghost use Rattle.std.specs.Prelude.{List, map};
    ghost use Rattle.std.specs.List.Sorted.{IsStrictlyIncreasing};
    ghost use Rattle.reg_core.specs.declared.entry.PageEntry.{PageEntry};

    ghost Value = { List PageEntry };

    ghost view = { λ l. l.items.items };

    ghost invariant = { λ l. IsStrictlyIncreasing (map (λ e. e.value) l.items.items) };
}

impl PageEntries {
    /// The entries of a vector, whose values ascend.
    pub fn from_vec(items: Vec<PageEntry>) -> Self
        requires { IsStrictlyIncreasing (map (λ e. e.value) items.items) }
        ensures { result ≡ items.items }
    {
        PageEntries { items }
    }

    /// All entries.
    pub fn as_slice(&self) -> &[PageEntry]
        ensures { result.now ≡ self.now }
    {
        self.items.as_slice()
    }

    /// Those whose values lie in a range. They are looked up by its two ends.
    pub fn in_range(&self, range: &Range) -> &[PageEntry]
        ensures { result.now ≡ filter (λ e. lies_in e.value range.now) self.now }
    {
        let lo = range.lo;
        let hi = range.hi;
        entries_to(entries_from(self.items.as_slice(), lo), hi)
    }
}

// Those at a value and above.
fn entries_from(entries: &[PageEntry], lo: u32) -> &[PageEntry]
    requires { IsNonDecreasingBy (λ e. e.value) entries.now }
    ensures { result.now ≡ filter (λ e. nat_le lo e.value) entries.now }
{
    let start = entries.partition_point(|entry| entry.value < lo);
    &entries[start..]
}

// Those at a value and below.
fn entries_to(entries: &[PageEntry], hi: u32) -> &[PageEntry]
    requires { IsNonDecreasingBy (λ e. e.value) entries.now }
    ensures { result.now ≡ filter (λ e. nat_le e.value hi) entries.now }
{
    let end = entries.partition_point(|entry| entry.value <= hi);
    &entries[..end]
}
