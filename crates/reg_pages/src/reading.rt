//! Files of notes: CSV with the header `registry,value,title,reference,note` and a row for each thing.
ghost use Rattle.std.specs.Prelude.{◌≡◌, ◌+◌, ◌≢◌, ◌<◌, ◌∷◌, ◌++◌, [], List, ℕ, Some, None, Ok, Err, OnOk, OnSome, IfOk, IfErr, MatchOption, length, string_bytes};
ghost use Rattle.csv.specs.Reading.{owned_rows_left};
ghost use Rattle.csv.specs.Records.{fields_of};
ghost use Rattle.reg_ranges.specs.RowReading.{HasRead, text_rows};
ghost use Rattle.reg_pages.specs.Notes.{note_count};
ghost use Rattle.reg_pages.specs.Reading.{AddsNotes, AreNotes, IsFaultOfNotes, Noted, added, file_notes, is_header, note_of, notes_fault_text, own_thing, part_word, row_of, rows_of, thing_of, words_of};
ghost use Rattle.reg_pages.specs.declared.reading.NotesFault.TheVariants as fault;

use crate::note::Note;
use crate::notes::{AUTHORITY, DESK, Notes, entry_thing};
use crate::words::Words;
use csv::{ByteRecord, ByteRecordsIntoIter, ReaderBuilder};
use reg_core::text::Name;
use reg_ranges::number::read_number;
use std::alloc::{AllocError, Global};
use std::error::Error;
use std::fmt;

/// How many bytes a file of notes has at most.
pub const MOST_BYTES: usize = 1_048_576;

/// The part of a row that is at fault.
#[derive(Clone, Copy, Debug, PartialEq, Eq)]
pub enum NotesPart {
    /// The row has not five columns.
    Columns,
    /// `registry` is not empty and not the name of a registry.
    Registry,
    /// `value` is no number of 0 to 4294967295 in decimal without leading zeros; or there is no registry,
    /// and it is neither empty nor `desk`.
    Value,
    /// A text has more than 1,000 bytes, is not UTF-8, or has a control character.
    Text,
    /// An earlier row is about the same thing.
    Repeated,
}

/// Why a file of notes has no notes to give.
#[derive(Clone, Copy, Debug, PartialEq, Eq)]
pub enum NotesFault {
    /// It has more than 1,048,576 bytes.
    Large,
    /// The first record is not `registry,value,title,reference,note`, or there is none.
    Header,
    /// The row at this place is at fault. Rows count from 0, after the header.
    Row(usize, NotesPart),
    /// There was no memory for more.
    Memory,
}

impl fmt::Display for NotesPart {
    ghost output = { λ p. Some (part_word p) };

    fn fmt<W: fmt::Write>(&self, f: &mut fmt::Formatter<W>) -> fmt::Result {
        match self {
            NotesPart::Columns => write!(f, "columns"),
            NotesPart::Registry => write!(f, "registry"),
            NotesPart::Value => write!(f, "value"),
            NotesPart::Text => write!(f, "text"),
            NotesPart::Repeated => write!(f, "repeated"),
        }
    }
}

impl fmt::Display for NotesFault {
    ghost output = { λ f. Some (notes_fault_text f) };

    fn fmt<W: fmt::Write>(&self, f: &mut fmt::Formatter<W>) -> fmt::Result {
        match self {
            NotesFault::Large => write!(f, "large"),
            NotesFault::Header => write!(f, "header"),
            NotesFault::Row(n, part) => write!(f, "row {n} {part}"),
            NotesFault::Memory => write!(f, "memory"),
        }
    }
}

impl Error for NotesFault {}

impl From<AllocError> for NotesFault {
    ghost from_gives = { λ _ f. f ≡ fault.Memory };

    fn from(_error: AllocError) -> NotesFault {
        NotesFault::Memory
    }
}

// ---- A row

// The five fields of a row.
#[derive(Clone, Copy)]
struct NoteFields<'a> {
    registry: &'a [u8],
    value: &'a [u8],
    title: &'a [u8],
    reference: &'a [u8],
    note: &'a [u8],
}

// A thing with its note.
#[derive(Drop)]
struct NotedThing {
    thing: String,
    note: Note,
}

#[tactic(auto, using(crate::proofs::FiveFields::five_there, crate::proofs::FiveFields::these_five))]
fn five_fields(row: &ByteRecord) -> Option<NoteFields<'_>>
    ensures { MatchOption result (length (fields_of row.now) ≢ 5)
        (λ f. fields_of row.now ≡ f.registry.now ∷ f.value.now ∷ f.title.now ∷ f.reference.now
        ∷ f.note.now ∷ []) }
{
    if row.len() != 5 {
        return None;
    }
    Some(NoteFields {
        registry: row.get(0)?,
        value: row.get(1)?,
        title: row.get(2)?,
        reference: row.get(3)?,
        note: row.get(4)?,
    })
}

fn is_header(row: &ByteRecord) -> bool
    ensures { result ≡ is_header (fields_of row.now) }
{
    match five_fields(row) {
        None => false,
        Some(fields) => names_columns(fields),
    }
}

fn names_columns(fields: NoteFields<'_>) -> bool
    ensures { result ≡ is_header
        (fields.entry.registry.now ∷ fields.entry.value.now ∷ fields.entry.title.now
        ∷ fields.entry.reference.now ∷ fields.entry.note.now ∷ []) }
{
    fields.registry == b"registry".as_slice()
        && fields.value == b"value".as_slice()
        && fields.title == b"title".as_slice()
        && fields.reference == b"reference".as_slice()
        && fields.note == b"note".as_slice()
}

fn read_row(alloc: Global, n: usize, row: &ByteRecord) -> Result<NotedThing, NotesFault>
    ensures row { IfOk result
        (λ r. row_of n (fields_of row.now) ≡ Ok (string_bytes r.thing, r.note)) }
    ensures fault { IfErr result (IsFaultOfNotes (row_of n (fields_of row.now))) }
{
    match five_fields(row) {
        None => Err(NotesFault::Row(n, NotesPart::Columns)),
        Some(fields) => read_fields(alloc, n, fields),
    }
}

fn read_fields(alloc: Global, n: usize, fields: NoteFields<'_>) -> Result<NotedThing, NotesFault>
    ensures row { IfOk result
        (λ r. row_of n
        (fields.entry.registry.now ∷ fields.entry.value.now ∷ fields.entry.title.now
        ∷ fields.entry.reference.now ∷ fields.entry.note.now ∷ []) ≡ Ok (string_bytes r.thing, r.note)) }
    ensures fault { IfErr result
        (IsFaultOfNotes
        (row_of n
        (fields.entry.registry.now ∷ fields.entry.value.now ∷ fields.entry.title.now
        ∷ fields.entry.reference.now ∷ fields.entry.note.now ∷ []))) }
{
    let thing = read_thing(alloc, n, fields.registry, fields.value)?;
    let note = read_note(alloc, n, fields.title, fields.reference, fields.note)?;
    Ok(NotedThing { thing, note })
}

// What row n is about.
fn read_thing(alloc: Global, n: usize, registry: &[u8], value: &[u8]) -> Result<String, NotesFault>
    ensures thing { IfOk result (λ t. thing_of n registry.now value.now ≡ Ok (string_bytes t)) }
    ensures fault { IfErr result (IsFaultOfNotes (thing_of n registry.now value.now)) }
{
    if registry.is_empty() {
        return read_own(alloc, n, value);
    }
    let name = Name::read(registry).ok_or(NotesFault::Row(n, NotesPart::Registry))?;
    if value.is_empty() {
        return Ok(String::from_str(alloc, name.as_str())?);
    }
    let value = read_number(value).ok_or(NotesFault::Row(n, NotesPart::Value))?;
    Ok(entry_thing(alloc, name.as_str(), value)?)
}

// What row n is about that is of no registry: the authority, or its desk.
fn read_own(alloc: Global, n: usize, value: &[u8]) -> Result<String, NotesFault>
    ensures thing { IfOk result (λ t. own_thing n value.now ≡ Ok (string_bytes t)) }
    ensures fault { IfErr result (IsFaultOfNotes (own_thing n value.now)) }
{
    if value.is_empty() {
        Ok(String::from_str(alloc, AUTHORITY)?)
    } else if value == b"desk".as_slice() {
        Ok(String::from_str(alloc, DESK)?)
    } else {
        Err(NotesFault::Row(n, NotesPart::Value))
    }
}

fn read_note(
    alloc: Global,
    n: usize,
    title: &[u8],
    reference: &[u8],
    note: &[u8],
) -> Result<Note, NotesFault>
    ensures note { IfOk result (λ r. note_of n title.now reference.now note.now ≡ Ok r) }
    ensures fault { IfErr result (IsFaultOfNotes (note_of n title.now reference.now note.now)) }
{
    let title = read_words(alloc, n, title)?;
    let reference = read_words(alloc, n, reference)?;
    let note = read_words(alloc, n, note)?;
    Ok(Note {
        title,
        reference,
        note,
    })
}

fn read_words(alloc: Global, n: usize, field: &[u8]) -> Result<Words, NotesFault>
    ensures words { IfOk result (λ w. words_of n field.now ≡ Ok w) }
    ensures fault { IfErr result (IsFaultOfNotes (words_of n field.now)) }
{
    match Words::read(alloc, field)? {
        Some(words) => Ok(words),
        None => Err(NotesFault::Row(n, NotesPart::Text)),
    }
}

// ---- The file

/// The notes of a file, or its first fault: its size, its header, then of the first row at fault its
/// columns, then its first field at fault from the left, then that an earlier row is about the same
/// thing. A byte order mark, blank lines and quotes are what CSV makes of them (RFC 4180).
pub fn read_notes(alloc: Global, file: &[u8]) -> Result<Notes, NotesFault>
    ensures notes { IfOk result (λ notes. (rows : List Noted) × (file_notes file.now ≡ Ok rows)
        × AreNotes notes rows) }
    ensures fault { IfErr result (IsFaultOfNotes (file_notes file.now)) }
{
    if MOST_BYTES < file.len() {
        return Err(NotesFault::Large);
    }
    let mut rows = rows_of(alloc, file);
    notes_of(alloc, &mut rows)
}

// The notes of the rows that a reader of a file still has to give.
fn notes_of(alloc: Global, rows: &mut ByteRecordsIntoIter<&[u8]>) -> Result<Notes, NotesFault>
    ensures notes { (text : List ℕ) → HasRead text [] rows.old
        → IfOk result (λ notes. (all : List Noted) × (rows_of (text_rows text) ≡ Ok all)
        × AreNotes notes all) }
    ensures fault { (text : List ℕ) → HasRead text [] rows.old
        → IfErr result (IsFaultOfNotes (rows_of (text_rows text))) }
{
    let Some(first) = next_row(rows)? else {
        return Err(NotesFault::Header);
    };
    if !is_header(&first) {
        return Err(NotesFault::Header);
    }
    let mut notes = Notes::none(alloc);
    while let Some(fields) = next_row(rows)? {
        let row = read_row(alloc, notes.count(), &fields)?;
        add(&mut notes, row)?;
    }
    Ok(notes)
}

// Adds what the next row says, where no earlier row is about the same thing.
fn add(notes: &mut Notes, row: NotedThing) -> Result<(), NotesFault>
    ensures counted { OnOk result (note_count notes.new ≡ note_count notes.old + 1) }
    ensures added { (before : List Noted) → AreNotes notes.old before
        → AddsNotes result notes.new (added (note_count notes.old) before (string_bytes row.thing, row.note)) }
{
    let n = notes.count();
    if notes.at(row.thing.as_str()).is_some() {
        return Err(NotesFault::Row(n, NotesPart::Repeated));
    }
    notes.add(row.thing, row.note)?;
    Ok(())
}

fn rows_of(alloc: Global, file: &[u8]) -> ByteRecordsIntoIter<&[u8]>
    ensures { HasRead file.now [] result }
{
    ReaderBuilder::new()
        .has_headers(false)
        .flexible(true)
        .from_reader(alloc, file)
        .into_byte_records()
}

fn next_row(rows: &mut ByteRecordsIntoIter<&[u8]>) -> Result<Option<ByteRecord>, NotesFault>
    ensures row { (text : List ℕ) (done : List (List (List ℕ))) → HasRead text done rows.old
        → IfOk result
        (λ o. MatchOption o (text_rows text ≡ done)
        (λ row. HasRead text (done ++ fields_of row ∷ []) rows.new)) }
    ensures fewer { IfOk result (λ o. OnSome o (owned_rows_left rows.new < owned_rows_left rows.old)) }
    ensures fault { IfErr result (λ f. f ≡ fault.Memory) }
{
    match rows.next() {
        None => Ok(None),
        Some(Ok(row)) => Ok(Some(row)),
        Some(Err(_)) => Err(NotesFault::Memory),
    }
}
