//! Range files: CSV with the header `lo,hi,treatment,note` and one row for each range.
ghost use Rattle.std.specs.Prelude.{◌≡◌, ◌≢◌, ◌<◌, ◌∷◌, ◌++◌, [], List, ℕ, Some, Ok, OnSome, IfOk, IfErr, MatchOption, length};
ghost use Rattle.csv.specs.Reading.{owned_rows_left};
ghost use Rattle.csv.specs.Records.{fields_of};
ghost use Rattle.reg_ranges.specs.declared.range_file.RowFault.TheVariants as fault;
ghost use Rattle.reg_ranges.specs.FaultTexts.{part_word, row_fault_text};
ghost use Rattle.reg_ranges.specs.RowReading.{HasRead, text_rows};
ghost use Rattle.reg_ranges.specs.RangeFile.{IsFaultOf, file_ranges, is_header, note_of, range_of};

use crate::number::read_number;
use crate::policy::Treatment;
use crate::range::Range;
use crate::text::Text;
use csv::{ByteRecord, ByteRecordsIntoIter, ReaderBuilder};
use std::alloc::{AllocError, AllocFailed, Global};
use std::error::Error;
use std::fmt;

/// The part of a row that is at fault.
#[derive(Clone, Copy, Debug, PartialEq, Eq)]
pub enum RowPart {
    /// The row has not four columns.
    Columns,
    /// `lo` or `hi` is no number of 0 to 4294967295 in decimal without leading zeros.
    Number,
    /// `treatment` is no policy's word and not `reserved`.
    Treatment,
    /// `note` is not 0 to 200 printable ASCII characters.
    Text,
}

/// Why a range file has no ranges to give.
#[derive(Clone, Copy, Debug, PartialEq, Eq)]
pub enum RowFault {
    /// The first record is not `lo,hi,treatment,note`, or there is none.
    Header,
    /// The row at this place is at fault. Rows count from 0, after the header.
    Row(usize, RowPart),
    /// There was no memory for more.
    Memory,
}

impl fmt::Display for RowPart {
    ghost output = { λ p. Some (part_word p) };

    fn fmt<W: fmt::Write>(&self, f: &mut fmt::Formatter<W>) -> fmt::Result {
        match self {
            RowPart::Columns => write!(f, "columns"),
            RowPart::Number => write!(f, "number"),
            RowPart::Treatment => write!(f, "treatment"),
            RowPart::Text => write!(f, "text"),
        }
    }
}

impl fmt::Display for RowFault {
    ghost output = { λ f. Some (row_fault_text f) };

    fn fmt<W: fmt::Write>(&self, f: &mut fmt::Formatter<W>) -> fmt::Result {
        match self {
            RowFault::Header => write!(f, "header"),
            RowFault::Row(n, part) => write!(f, "row {n} {part}"),
            RowFault::Memory => write!(f, "memory"),
        }
    }
}

impl Error for RowFault {}

impl From<AllocError> for RowFault {
    ghost from_gives = { λ _ f. f ≡ fault.Memory };

    fn from(_error: AllocError) -> RowFault {
        RowFault::Memory
    }
}

impl<T: Drop> From<AllocFailed<T>> for RowFault {
    ghost from_gives = { λ _ f. f ≡ fault.Memory };

    fn from(_error: AllocFailed<T>) -> RowFault {
        RowFault::Memory
    }
}

// The four fields of a row.
#[derive(Clone, Copy)]
struct Fields<'a> {
    lo: &'a [u8],
    hi: &'a [u8],
    treatment: &'a [u8],
    note: &'a [u8],
}

fn four_fields(row: &ByteRecord) -> Option<Fields<'_>>
    ensures { MatchOption result (length (fields_of row.now) ≢ 4)
        (λ f. fields_of row.now ≡ f.lo.now ∷ f.hi.now ∷ f.treatment.now ∷ f.note.now ∷ []) }
{
    if row.len() != 4 {
        return None;
    }
    Some(Fields {
        lo: row.get(0)?,
        hi: row.get(1)?,
        treatment: row.get(2)?,
        note: row.get(3)?,
    })
}

fn is_header(row: &ByteRecord) -> bool
    ensures { result ≡ is_header (fields_of row.now) }
{
    match four_fields(row) {
        None => false,
        Some(fields) => names_columns(fields),
    }
}

fn names_columns(fields: Fields<'_>) -> bool
    ensures { result ≡ is_header
        (fields.entry.lo.now ∷ fields.entry.hi.now ∷ fields.entry.treatment.now
        ∷ fields.entry.note.now ∷ []) }
{
    fields.lo == b"lo".as_slice()
        && fields.hi == b"hi".as_slice()
        && fields.treatment == b"treatment".as_slice()
        && fields.note == b"note".as_slice()
}

fn read_row(alloc: Global, n: usize, row: &ByteRecord) -> Result<Range, RowFault>
    ensures range { IfOk result (λ range. range_of n (fields_of row.now) ≡ Ok range) }
    ensures fault { IfErr result (IsFaultOf (range_of n (fields_of row.now))) }
{
    match four_fields(row) {
        None => Err(RowFault::Row(n, RowPart::Columns)),
        Some(fields) => read_fields(alloc, n, fields),
    }
}

fn read_fields(alloc: Global, n: usize, fields: Fields<'_>) -> Result<Range, RowFault>
    ensures range { IfOk result
        (λ range. range_of n
        (fields.entry.lo.now ∷ fields.entry.hi.now ∷ fields.entry.treatment.now
        ∷ fields.entry.note.now ∷ []) ≡ Ok range) }
    ensures fault { IfErr result
        (IsFaultOf
        (range_of n
        (fields.entry.lo.now ∷ fields.entry.hi.now ∷ fields.entry.treatment.now
        ∷ fields.entry.note.now ∷ []))) }
{
    let lo = read_number(fields.lo).ok_or(RowFault::Row(n, RowPart::Number))?;
    let hi = read_number(fields.hi).ok_or(RowFault::Row(n, RowPart::Number))?;
    let treatment = Treatment::read(fields.treatment).ok_or(RowFault::Row(n, RowPart::Treatment))?;
    let note = read_note(alloc, n, fields.note)?;
    Ok(Range {
        lo,
        hi,
        treatment,
        note,
    })
}

// The note of row n: none where the field is empty.
fn read_note(alloc: Global, n: usize, field: &[u8]) -> Result<Option<Text>, RowFault>
    ensures note { IfOk result (λ note. note_of n field.now ≡ Ok note) }
    ensures fault { IfErr result (IsFaultOf (note_of n field.now)) }
{
    if field.is_empty() {
        return Ok(None);
    }
    match Text::read(alloc, field)? {
        Some(text) => Ok(Some(text)),
        None => Err(RowFault::Row(n, RowPart::Text)),
    }
}

/// The ranges of a range file, row by row, or the first fault: the header, then of the first row at
/// fault its columns, then its first field at fault from the left. A byte order mark, blank lines
/// and quotes are what CSV makes of them (RFC 4180). Whether the ranges are a partition is not
/// looked at.
pub fn read_ranges(alloc: Global, file: &[u8]) -> Result<Vec<Range>, RowFault>
    ensures ranges { IfOk result (λ ranges. file_ranges file.now ≡ Ok ranges.items) }
    ensures fault { IfErr result (IsFaultOf (file_ranges file.now)) }
{
    let mut rows = rows_of(alloc, file);
    ranges_of(alloc, &mut rows)
}

// The ranges of the rows that a reader of a file still has to give.
fn ranges_of(alloc: Global, rows: &mut ByteRecordsIntoIter<&[u8]>) -> Result<Vec<Range>, RowFault>
    ensures ranges { (text : List ℕ) → HasRead text [] rows.old
        → IfOk result (λ ranges. file_ranges text ≡ Ok ranges.items) }
    ensures fault { (text : List ℕ) → HasRead text [] rows.old
        → IfErr result (IsFaultOf (file_ranges text)) }
{
    let Some(first) = next_row(rows)? else {
        return Err(RowFault::Header);
    };
    if !is_header(&first) {
        return Err(RowFault::Header);
    }
    let mut ranges = Vec::new(alloc);
    while let Some(row) = next_row(rows)? {
        let range = read_row(alloc, ranges.len(), &row)?;
        ranges.push(range)?;
    }
    Ok(ranges)
}

fn rows_of(alloc: Global, file: &[u8]) -> ByteRecordsIntoIter<&[u8]>
    ensures { HasRead file.now [] result }
{
    ReaderBuilder::new()
        .has_headers(false)
        .flexible(true)
        .from_reader(alloc, file)
        .into_byte_records()
}

fn next_row(rows: &mut ByteRecordsIntoIter<&[u8]>) -> Result<Option<ByteRecord>, RowFault>
    ensures row { (text : List ℕ) (done : List (List (List ℕ))) → HasRead text done rows.old
        → IfOk result
        (λ o. MatchOption o (text_rows text ≡ done)
        (λ row. HasRead text (done ++ fields_of row ∷ []) rows.new)) }
    ensures fewer { IfOk result (λ o. OnSome o (owned_rows_left rows.new < owned_rows_left rows.old)) }
    ensures fault { IfErr result (λ f. f ≡ fault.Memory) }
{
    match rows.next() {
        None => Ok(None),
        Some(Ok(row)) => Ok(Some(row)),
        Some(Err(_)) => Err(RowFault::Memory),
    }
}
