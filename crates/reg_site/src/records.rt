//! A registry in the form in which IANA publishes registries (XML 1.0), a record at a time.
ghost use Rattle.std.specs.Prelude.{◌≡◌, ◌++◌, codes, map, string_bytes, IfOk, OnOk};
ghost use Rattle.std.specs.Option.{option_copied};
ghost use Rattle.reg_pages.specs.Appended.{Appended, Shown};
ghost use Rattle.reg_pages.specs.Markup.{all_of, opening_then};
ghost use Rattle.reg_print.specs.Listing.{row_view};
ghost use Rattle.reg_pages.specs.Noted.{noted_in};
ghost use Rattle.reg_site.specs.Records.{above_records, dated, described, early_text, range_by, range_of, record_by, record_of, records_left, records_text, title_of, title_start};

use crate::policy::treatment_name;
use reg_core::page::Page;
use reg_early::term;
use reg_pages::markup::Piece::{Markup, Text};
use reg_pages::markup::{push, push_all, push_framed};
use reg_pages::note::Note;
use reg_pages::noted::{note_on, of_row, reference_in, title_in};
use reg_pages::notes::Notes;
use reg_pages::portions::{Next, Portions};
use reg_pages::reference::push_xref;
use reg_print::listing::registry::{expiry_text, first_text};
use reg_print::listing::rows::{ListingRow, RowStatus, Run, rows};
use reg_ranges::range::Range;
use std::alloc::{AllocError, Global};

/// A registry in IANA's form in portions. The first portion has its title and its ranges, each other one
/// a record of a row of its listing, and the last what stands below.
#[derive(Drop)]
pub struct RegistryRecords<'a> {
    page: &'a Page,
    notes: Option<&'a Notes>,
    day: &'a str,
    rows: Vec<ListingRow<'a>>,
    next: Next,
}

impl<'a> RegistryRecords<'a> {
    /// All of the file is to be given, with what is noted, and the day of the last change, which is empty
    /// where it is not known. Only want of memory is an error.
    pub fn of(
        alloc: Global,
        page: &'a Page,
        notes: Option<&'a Notes>,
        day: &'a str,
    ) -> Result<Self, AllocError>
        ensures { IfOk result
            (λ r. records_left r ≡ records_text (option_copied notes.entry) day.now page.now) }
    {
        Ok(RegistryRecords {
            page,
            notes,
            day,
            rows: rows(alloc, page)?,
            next: Next::Above,
        })
    }
}

impl Portions for RegistryRecords<'_> {
    ghost rest = { records_left };

    fn push_next(&mut self, out: &mut Vec<u8>) -> Result<bool, AllocError> {
        let alloc = *out.allocator();
        match self.next {
            Next::Above => push_above(out, alloc, self.page, self.notes, self.day)?,
            Next::Row(place) => match self.rows.get(place) {
                Some(row) => push_record(out, alloc, self.notes, self.page.name.as_str(), row)?,
                None => push(out, "</registry>\n")?,
            },
            Next::Nothing => return Ok(false),
        }
        self.next = self.next.after(self.rows.len());
        Ok(true)
    }
}

// What stands above the records.
fn push_above(
    out: &mut Vec<u8>,
    alloc: Global,
    page: &Page,
    notes: Option<&Notes>,
    day: &str,
) -> Result<(), AllocError>
    ensures { OnOk result (Appended out.old.items out.new.items
        (above_records page.now.name
        (title_of (noted_in (option_copied notes.entry) page.now.name) page.now.name) day.now
        page.now.table.ranges)) }
{
    let name = page.name.as_str();
    let title = title_of(note_on(notes, name), name);
    push_above_of(out, alloc, name, title, day, page.table.ranges())
}

fn push_above_of(
    out: &mut Vec<u8>,
    alloc: Global,
    name: &str,
    title: &str,
    day: &str,
    ranges: &[Range],
) -> Result<(), AllocError>
    ensures { OnOk result (Appended out.old.items out.new.items
        (above_records name.now title.now day.now ranges.now)) }
{
    push_title(out, name, title)?;
    push_framed(out, "<updated>", day, "</updated>\n")?;
    push_ranges(out, alloc, ranges)?;
    Ok(())
}

/// The title that is noted, or else the name.
pub fn title_of<'a>(note: Option<&'a Note>, name: &'a str) -> &'a str
    ensures { result.now ≡ title_of (option_copied note.entry) name.now }
{
    let title = title_in(note);
    if title.is_empty() { name } else { title }
}

fn push_title<'a>(out: &mut Vec<u8>, name: &'a str, title: &'a str) -> Result<(), AllocError>
    ensures { OnOk result (Appended out.old.items out.new.items (title_start name.now title.now)) }
{
    push_all(
        out,
        &[
            Markup("<?xml version=\"1.0\" encoding=\"UTF-8\"?>\n"),
            Markup("<registry xmlns=\"http://www.iana.org/assignments\" id=\""),
            Text(name),
            Markup("\">\n<title>"),
            Text(title),
            Markup("</title>\n"),
        ],
    )
}

fn push_ranges(out: &mut Vec<u8>, alloc: Global, ranges: &[Range]) -> Result<(), AllocError>
    ensures { OnOk result (Shown out.old.items out.new.items (all_of (map range_of ranges.now))) }
{
    for range in ranges {
        push_range(out, alloc, range)?;
    }
    Ok(())
}

fn push_range(out: &mut Vec<u8>, alloc: Global, range: &Range) -> Result<(), AllocError>
    ensures { OnOk result (Shown out.old.items out.new.items (range_of range.now)) }
{
    let run = Run {
        lo: range.lo,
        hi: range.hi,
    };
    let values = format!(in alloc; "{run}")?;
    push_range_texts(out, values.as_str(), treatment_name(range.treatment))
}

fn push_range_texts<'a>(out: &mut Vec<u8>, values: &'a str, rule: &'a str) -> Result<(), AllocError>
    ensures { OnOk result (Shown out.old.items out.new.items (range_by values.now rule.now)) }
{
    push_all(
        out,
        &[
            Markup("<range><value>"),
            Text(values),
            Markup("</value><registration_rule>"),
            Text(rule),
            Markup("</registration_rule></range>\n"),
        ],
    )
}

// ---- A record

fn push_record(
    out: &mut Vec<u8>,
    alloc: Global,
    notes: Option<&Notes>,
    name: &str,
    row: &ListingRow<'_>,
) -> Result<(), AllocError>
    ensures { OnOk result
        (Shown out.old.items out.new.items
        (record_of (option_copied notes.entry) name.now (row_view row.now))) }
{
    let values = format!(in alloc; "{}", row.values)?;
    let first = first_text(alloc, row)?;
    let expires = expiry_text(alloc, row)?;
    let words = described(
        alloc,
        row.status,
        row.description,
        first.as_str(),
        expires.as_str(),
    )?;
    let note = of_row(alloc, notes, name, row)?;
    push_record_texts(out, first.as_str(), values.as_str(), words.as_str(), note)
}

// What a row is for.
fn described(
    alloc: Global,
    status: RowStatus,
    label: &str,
    first: &str,
    expires: &str,
) -> Result<String, AllocError>
    ensures { IfOk result
        (λ words. string_bytes words ≡ described status label.now first.now expires.now) }
{
    match status {
        RowStatus::Entry(term::Status::Assigned) => String::from_str(alloc, label),
        RowStatus::Entry(term::Status::Temporary) => {
            early_text(alloc, label, "TEMPORARY", first, expires)
        }
        RowStatus::Entry(term::Status::Expired) => early_text(
            alloc, label, "EXPIRED", first, expires,
        ),
        RowStatus::Unassigned
        | RowStatus::Reserved
        | RowStatus::PrivateUse
        | RowStatus::ExperimentalUse
        | RowStatus::HierarchicalAllocation => String::from_str(alloc, status.word()),
    }
}

// A label, and how the early allocation stands.
fn early_text(
    alloc: Global,
    label: &str,
    word: &str,
    first: &str,
    expires: &str,
) -> Result<String, AllocError>
    ensures { IfOk result
        (λ text. string_bytes text ≡ label.now ++ early_text word.now first.now expires.now) }
{
    format!(in alloc; "{label} ({word} - registered {first}, expires {expires})")
}

fn push_record_texts<'a>(
    out: &mut Vec<u8>,
    first: &'a str,
    values: &'a str,
    words: &'a str,
    note: Option<&'a Note>,
) -> Result<(), AllocError>
    ensures { OnOk result
        (Shown out.old.items out.new.items
        (record_by first.now values.now words.now (option_copied note.entry))) }
{
    push_record_start(out, first)?;
    push_all(
        out,
        &[
            Markup("<value>"),
            Text(values),
            Markup("</value><description>"),
            Text(words),
            Markup("</description>"),
        ],
    )?;
    push_xref(out, reference_in(note))?;
    push(out, "</record>\n")?;
    Ok(())
}

fn push_record_start(out: &mut Vec<u8>, first: &str) -> Result<(), AllocError>
    ensures { OnOk result
        (Appended out.old.items out.new.items (opening_then (codes "record") (dated first.now))) }
{
    if first.is_empty() {
        return push(out, "<record>");
    }
    push_all(
        out,
        &[Markup("<record date=\""), Text(first), Markup("\">")],
    )
}
