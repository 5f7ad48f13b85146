//! Reads the page of a registry.
ghost use Rattle.std.specs.Prelude.{◌≡◌, IfOk, IsTrue, map};
ghost use Rattle.std.specs.List.Sorted.{IsStrictlyIncreasing};

use crate::reading::blocks::text_of;
use crate::reading::members::Members;
use json::Scratch;
use reg_core::entry::PageEntry;
use reg_core::page::{Page, PageEntries};
use reg_core::text::{Account, Name, Text};
use reg_early::day::Day;
use reg_early::day_reading::read_day;
use reg_early::term::{Status, Term};
use reg_print::comparing::behind;
use reg_print::parts::front;
use reg_ranges::policy::Treatment;
use reg_ranges::range::Range;
use reg_ranges::table::RangeTable;
use reg_source::unpublished::Unpublished;
use std::alloc::{AllocError, Global};

/// How many bytes an entry of an office has at most, and more.
const MOST_ENTRY_BYTES: usize = 1_024;

/// The page of the registry of this name. Its entries are read one by one, since a reader of JSON takes
/// as much memory as its text has.
pub(super) fn read(alloc: Global, name: &Name, body: &[u8]) -> Result<Page, Unpublished>
    ensures { IfOk result (λ page. page.name ≡ name.now) }
{
    let mut scratch = Scratch::new(alloc);
    let rest = behind(front(), body).ok_or(Unpublished::Read)?;
    let (entries, rest) = read_entries(alloc, &mut scratch, rest)?;
    let rest = behind(b"],", rest).ok_or(Unpublished::Read)?;
    let frame = object_of(alloc, rest)?;
    let mut members = Members::new(&mut scratch, &frame)?;
    Ok(Page {
        name: *name,
        table: read_table(alloc, name, &mut members)?,
        entries,
    })
}

// The object whose text goes on so behind its bracket.
fn object_of(alloc: Global, members: &[u8]) -> Result<Vec<u8>, AllocError> {
    let mut text = Vec::with_capacity(alloc, members.len().saturating_add(1))?;
    text.push(b'{')?;
    text.extend_from_slice(members)?;
    Ok(text)
}

fn read_table(
    alloc: Global,
    name: &Name,
    members: &mut Members<'_>,
) -> Result<RangeTable, Unpublished> {
    members.open_object()?;
    let max = members.number("max")?;
    if members.text("name")? != name.as_str() {
        return Err(Unpublished::Read);
    }
    members.enter("ranges")?;
    let ranges = read_ranges(alloc, members)?;
    let table = table_of(max, ranges)?;
    close(members)?;
    Ok(table)
}

// That the page ends here, and the text.
fn close(members: &mut Members<'_>) -> Result<(), Unpublished> {
    members.next_name()?;
    members.close_object()?;
    members.end()
}

fn table_of(max: u32, ranges: Vec<Range>) -> Result<RangeTable, Unpublished> {
    match RangeTable::make(max, ranges) {
        Ok(table) => Ok(table),
        Err(_) => Err(Unpublished::Read),
    }
}

// The entries, and what is left of the text from the bracket on that ends them.
fn read_entries<'a>(
    alloc: Global,
    scratch: &mut Scratch<Global>,
    text: &'a [u8],
) -> Result<(PageEntries, &'a [u8]), Unpublished> {
    let mut entries = Vec::new(alloc);
    let rest = push_entries(alloc, scratch, &mut entries, text)?;
    Ok((in_order(entries)?, rest))
}

fn push_entries<'a>(
    alloc: Global,
    scratch: &mut Scratch<Global>,
    entries: &mut Vec<PageEntry>,
    text: &'a [u8],
) -> Result<&'a [u8], Unpublished> {
    let mut rest = text;
    for _ in 0..u64::MAX {
        if rest.starts_with(b"]") {
            return Ok(rest);
        }
        let (entry, after) = first_entry(alloc, scratch, rest)?;
        entries.push(entry)?;
        rest = after;
    }
    Err(Unpublished::Read)
}

// The entry with which a text begins, and what is left behind it and its comma.
fn first_entry<'a>(
    alloc: Global,
    scratch: &mut Scratch<Global>,
    text: &'a [u8],
) -> Result<(PageEntry, &'a [u8]), Unpublished> {
    let front = &text[..text.len().min(MOST_ENTRY_BYTES)];
    let mut members = Members::new(scratch, front)?;
    let entry = read_entry(alloc, &mut members)?;
    match text.get(members.offset()..) {
        Some(rest) => Ok((entry, rest)),
        None => Err(Unpublished::Read),
    }
}

// The entries, where their values ascend.
fn in_order(entries: Vec<PageEntry>) -> Result<PageEntries, Unpublished> {
    if ascend(entries.as_slice()) {
        Ok(PageEntries::from_vec(entries))
    } else {
        Err(Unpublished::Read)
    }
}

// Whether each entry has a greater value than the one before it.
fn ascend(entries: &[PageEntry]) -> bool
    ensures { IsTrue result → IsStrictlyIncreasing (map (λ e. e.value) entries.now) }
{
    entries.is_sorted_by(|entry, next| entry.value < next.value)
}

fn read_entry(alloc: Global, members: &mut Members<'_>) -> Result<PageEntry, Unpublished> {
    members.open_object()?;
    let assignee = account_of(members.text("assignee")?)?;
    let expires = day_if(members.text_if("expires")?)?;
    let first = day_of(members.text("first")?)?;
    let held = members.truth_if("held")?;
    let label = members.text("label")?;
    let renewed = members.truth_if("renewed")?;
    let status = status_of(members.text("status")?)?;
    let value = members.number("value")?;
    members.close_object()?;
    Ok(PageEntry {
        label: text_of(alloc, label.as_bytes())?,
        value,
        term: Term {
            first,
            expires,
            renewed,
            held,
        },
        assignee,
        status,
    })
}

fn account_of(text: &str) -> Result<Account, Unpublished> {
    Account::read(text.as_bytes()).ok_or(Unpublished::Read)
}

fn status_of(word: &str) -> Result<Status, Unpublished> {
    match word {
        "Assigned" => Ok(Status::Assigned),
        "Temporary" => Ok(Status::Temporary),
        "Expired" => Ok(Status::Expired),
        _ => Err(Unpublished::Read),
    }
}

fn day_if(text: Option<&str>) -> Result<Option<Day>, Unpublished> {
    match text {
        Some(text) => Ok(Some(day_of(text)?)),
        None => Ok(None),
    }
}

fn day_of(text: &str) -> Result<Day, Unpublished> {
    read_day(text.as_bytes()).ok_or(Unpublished::Read)
}

fn read_ranges(alloc: Global, members: &mut Members<'_>) -> Result<Vec<Range>, Unpublished> {
    members.open_array()?;
    let mut ranges = Vec::new(alloc);
    push_ranges(alloc, &mut ranges, members)?;
    Ok(ranges)
}

fn push_ranges(
    alloc: Global,
    ranges: &mut Vec<Range>,
    members: &mut Members<'_>,
) -> Result<(), Unpublished> {
    for _ in 0..u64::MAX {
        if members.closes_array() {
            return Ok(());
        }
        ranges.push(read_range(alloc, members)?)?;
    }
    Err(Unpublished::Read)
}

fn read_range(alloc: Global, members: &mut Members<'_>) -> Result<Range, Unpublished> {
    members.open_object()?;
    let hi = members.number("hi")?;
    let lo = members.number("lo")?;
    let note = members.text("note")?;
    let treatment = treatment_of(members.text("treatment")?)?;
    members.close_object()?;
    Ok(Range {
        lo,
        hi,
        treatment,
        note: note_of(alloc, note)?,
    })
}

fn treatment_of(word: &str) -> Result<Treatment, Unpublished> {
    Treatment::read(word.as_bytes()).ok_or(Unpublished::Read)
}

// A note; none where it is empty.
fn note_of(alloc: Global, note: &str) -> Result<Option<Text>, Unpublished> {
    if note.is_empty() {
        return Ok(None);
    }
    Ok(Some(text_of(alloc, note.as_bytes())?))
}
