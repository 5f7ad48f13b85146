//! Reads the records of a history, as CSV has them.
ghost use Rattle.std.specs.Prelude.{◌≡◌, ◌∷◌, ◌++◌, [], ℕ, List, Some, IfOk, IsSomeAnd, option_map};
ghost use Rattle.std.specs.Str.{IsUtf8};
ghost use Rattle.csv.specs.Records.{field_at, fields_of};
ghost use Rattle.reg_changes.specs.declared.change.HistoryRecord.{HistoryRecord};
ghost use Rattle.reg_history.specs.Chain.{record_fields};
ghost use Rattle.reg_history.specs.Reading.{BeginsWithRow, IsAt};
ghost use Rattle.reg_history.specs.Texts.{texts_of};
ghost use Rattle.reg_history.specs.Written.{IsText};

use crate::fields::SharedFields;
use crate::texts::Texts;
use csv::{ByteRecord, Reader, ReaderBuilder};
use reg_changes::change::HistoryRecord;
use std::alloc::{AllocError, Global};

/// The records of a text, one after the other.
#[derive(Drop)]
pub(crate) struct Records<'a> {
    reader: Reader<&'a [u8]>,
    row: ByteRecord,
    fields: SharedFields,
}

impl<'a> Records<'a> {
    /// Those of a text without the record of its columns. Only want of memory is an error.
    pub fn of(alloc: Global, text: &'a [u8]) -> Result<Self, AllocError>
        ensures { IfOk result (λ records. IsAt records text.now) }
    {
        Ok(Records {
            fields: SharedFields::new(alloc)?,
            reader: ReaderBuilder::new()
                .has_headers(false)
                .flexible(true)
                .from_reader(alloc, text),
            row: ByteRecord::new(alloc),
        })
    }

    /// The record that comes next; none where none does, or what comes is no record. Only want of memory
    /// is an error.
    pub fn next(&mut self) -> Result<Option<HistoryRecord>, AllocError>
        ensures goes_on { IfOk result (λ _. (text : List ℕ) (r : HistoryRecord) (rest : List ℕ)
            → IsAt self.old text → BeginsWithRow text r rest → IsAt self.new rest) }
        ensures reads { IfOk result (λ next. (text : List ℕ) (r : HistoryRecord) (rest : List ℕ)
            → IsAt self.old text → BeginsWithRow text r rest → IsText r → next ≡ Some r) }
    {
        match self.reader.read_byte_record(&mut self.row) {
            Ok(true) => match texts_of(&self.row) {
                Some(texts) => self.fields.record(&texts),
                None => Ok(None),
            },
            Ok(false) => Ok(None),
            // A text in memory can always be read.
            Err(_) => Err(AllocError),
        }
    }
}

// The texts of the row; none where it has too few, or what is no text.
fn texts_of(row: &ByteRecord) -> Option<Texts<'_>>
    ensures { (number digest : List ℕ) (r : HistoryRecord)
        → fields_of row.now ≡ record_fields number r ++ digest ∷ [] → IsUtf8 number → IsText r
        → IsSomeAnd result (λ texts. texts_of texts ≡ record_fields number r) }
{
    Some(Texts {
        number: text_at(row, 0)?,
        moment: text_at(row, 1)?,
        registry: text_at(row, 2)?,
        change: text_at(row, 3)?,
        value: text_at(row, 4)?,
        description: text_at(row, 5)?,
        policy: text_at(row, 6)?,
        first: text_at(row, 7)?,
        expires: text_at(row, 8)?,
        held: text_at(row, 9)?,
        assignee: text_at(row, 10)?,
    })
}

// The text at a place of the row, if that has one.
fn text_at(row: &ByteRecord, place: usize) -> Option<&str>
    ensures { (text : List ℕ) → field_at (fields_of row.now) place ≡ Some text → IsUtf8 text
        → option_map (λ s. s.now) result ≡ Some text }
{
    str::from_utf8(row.get(place)?).ok()
}
