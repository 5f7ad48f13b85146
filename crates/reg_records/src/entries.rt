//! Entries as rows of the table `entries`.
ghost use Rattle.std.specs.Prelude.{◌≡◌};
ghost use Rattle.sqlite.specs.Order.{column};
ghost use Rattle.sqlite.specs.Value.{owned};
ghost use Rattle.sqlite.specs.Values.{bound, or_null};
ghost use Rattle.reg_early.specs.Forms.{is_day};
ghost use Rattle.reg_core.specs.World.{place_cmp};
ghost use Rattle.reg_records.specs.Columns.{number_in, or_null_in, whole_value};
ghost use Rattle.reg_records.specs.Entries.{entry_in, entry_values};

use crate::column::{
    flag, flag_value, is_null, name, name_value, number, number_value, printable, printable_value,
};
use crate::record::{Keyed, Record, in_form};
use reg_core::entry::Entry;
use reg_early::day::Day;
use reg_early::term::Term;
use sqlite::Row;
use sqlite::types::ValueRef;
use std::alloc::{AllocError, Global};
use std::cmp::Ordering;

impl Record for Entry {
    ghost of = { entry_in };

    fn read(alloc: Global, row: &Row) -> Result<Option<Self>, AllocError> {
        let registry = in_form!(name(row, 0));
        let value = in_form!(number(row, 1));
        let label = in_form!(printable(alloc, row, 2)?);
        let assignee = in_form!(name(row, 3));
        let first = in_form!(day(row, 4));
        let expires = in_form!(day_or_null(row, 5));
        let renewed = in_form!(flag(row, 6));
        Ok(Some(Entry {
            registry,
            value,
            label,
            assignee,
            term: Term {
                first,
                expires,
                renewed,
                held: false,
            },
        }))
    }
}

impl Keyed for Entry {
    ghost order = { λ a b. place_cmp (a.registry, a.value) (b.registry, b.value) };

    fn compare(&self, other: &Self) -> Ordering {
        let registries = self.registry.cmp(&other.registry);
        registries.then(self.value.cmp(&other.value))
    }
}

/// The row that is written for an entry: registry, value, label, assignee, first, expires, renewed.
/// Its mark is a row of `holds`.
pub fn entry_values(entry: &Entry) -> [ValueRef<'_>; 7]
    ensures { bound result ≡ entry_values entry.now }
{
    [
        name_value(&entry.registry),
        number_value(entry.value),
        printable_value(&entry.label),
        name_value(&entry.assignee),
        number_value(entry.term.first.days()),
        expiry_value(entry.term.expires),
        flag_value(entry.term.renewed),
    ]
}

// What is written for a day of expiry: NULL for none.
fn expiry_value(expires: Option<Day>) -> ValueRef<'static>
    ensures { owned result ≡ or_null whole_value expires }
{
    match expires {
        Some(day) => number_value(day.days()),
        None => ValueRef::Null,
    }
}

#[tactic(auto, using(std::proofs::lemmas::Bool::Decides::nat_tests))]
fn day(row: &Row, at: usize) -> Option<Day>
    ensures { result ≡ number_in is_day (column row.now at) }
{
    Day::from_days(number(row, at)?)
}

fn day_or_null(row: &Row, at: usize) -> Option<Option<Day>>
    ensures { result ≡ or_null_in (number_in is_day) (column row.now at) }
{
    if is_null(row, at) {
        return Some(None);
    }
    day(row, at).map(Some)
}
