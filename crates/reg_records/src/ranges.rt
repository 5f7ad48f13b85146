//! Ranges of registries as rows of the table `ranges`.
ghost use Rattle.std.specs.Prelude.{◌≡◌, IfOk};
ghost use Rattle.sqlite.specs.Order.{column};
ghost use Rattle.sqlite.specs.Values.{bound};
ghost use Rattle.reg_core.specs.World.{place_cmp};
ghost use Rattle.reg_records.specs.Columns.{read_in};
ghost use Rattle.reg_records.specs.Ranges.{note_text, range_in, range_values, read_note};

use crate::column::{name, name_value, number, number_value, text, word, word_value};
use crate::record::{Keyed, Record, in_form};
use reg_core::text::{Name, Text};
use reg_ranges::formed::Formed;
use reg_ranges::range::Range;
use sqlite::Row;
use sqlite::types::ValueRef;
use std::alloc::{AllocError, Global};
use std::cmp::Ordering;

/// A range with the name of its registry.
#[derive(Drop)]
pub struct RegistryRange {
    pub registry: Name,
    pub range: Range,
}

impl Record for RegistryRange {
    ghost of = { range_in };

    fn read(alloc: Global, row: &Row) -> Result<Option<Self>, AllocError> {
        let registry = in_form!(name(row, 0));
        let lo = in_form!(number(row, 1));
        let hi = in_form!(number(row, 2));
        let treatment = in_form!(word(row, 3));
        let note = in_form!(note(alloc, row, 4)?);
        Ok(Some(RegistryRange {
            registry,
            range: Range {
                lo,
                hi,
                treatment,
                note,
            },
        }))
    }
}

impl Keyed for RegistryRange {
    ghost order = { λ a b. place_cmp (a.registry, a.range.lo) (b.registry, b.range.lo) };

    fn compare(&self, other: &Self) -> Ordering {
        let registries = self.registry.cmp(&other.registry);
        registries.then(self.range.lo.cmp(&other.range.lo))
    }
}

impl Formed for RegistryRange {
    ghost use Rattle.reg_records.specs.Ranges.{is_registry_range};

    ghost has_form = { is_registry_range };

    #[tactic(auto, using(std::proofs::lemmas::Bool::Decides::nat_tests))]
    fn formed(&self) {
        self.registry.formed();
        let (_lo, _hi) = (self.range.lo, self.range.hi);
        self.range.formed();
    }
}

impl RegistryRange {
    /// The row that is written: registry, lo, hi, treatment, note.
    pub fn values(&self) -> [ValueRef<'_>; 5]
        ensures { bound result ≡ range_values self.now }
    {
        [
            name_value(&self.registry),
            number_value(self.range.lo),
            number_value(self.range.hi),
            word_value(&self.range.treatment),
            ValueRef::Text(note_text(&self.range.note)),
        ]
    }
}

// The note in a column; the empty text stands for none.
fn note(alloc: Global, row: &Row, at: usize) -> Result<Option<Option<Text>>, AllocError>
    ensures { IfOk result (λ note. note ≡ read_in read_note (column row.now at)) }
{
    let bytes = in_form!(text(row, at));
    if bytes.is_empty() {
        return Ok(Some(None));
    }
    Ok(Text::read(alloc, bytes)?.map(Some))
}

fn note_text(note: &Option<Text>) -> &[u8]
    ensures { result.now ≡ note_text note.now }
{
    match note {
        Some(note) => note.as_str().as_bytes(),
        None => b"",
    }
}
