//! The page of a registry.
ghost use Rattle.std.specs.Prelude.{◌≡◌, ◌∷◌, [], map, IfOk, OnOk};
ghost use Rattle.std.specs.Option.{option_copied};
ghost use Rattle.reg_print.specs.Listing.{row_view};
ghost use Rattle.reg_pages.specs.Appended.{Appended, Shown};
ghost use Rattle.reg_pages.specs.Markup.{all_of};
ghost use Rattle.reg_site.specs.Registry.{above_rows, described_row, described_start, intro, links, noted_row, page_left, range_by, range_row, registry_page};
ghost use Rattle.reg_site.specs.Summary.{summary};

use crate::bar::push_bar;
use crate::policy::{named_policy, treatment_name};
use crate::status::shown_status;
use crate::summary::Summary;
use reg_core::entry::PageEntry;
use reg_core::page::Page;
use reg_pages::document::push_start;
use reg_pages::markup::Piece::{Markup, Number, Text};
use reg_pages::markup::{push, push_all, push_framed};
use reg_pages::note::Note;
use reg_pages::noted::{note_on, of_row, push_apply, push_noted, reference_in, title_in, words_in};
use reg_pages::notes::Notes;
use reg_pages::portions::{Next, Portions};
use reg_pages::reference::push_reference;
use reg_pages::table::push_below;
use reg_print::listing::registry::{assignee_text, expiry_text, first_text};
use reg_print::listing::rows::{ListingRow, Run, rows};
use reg_print::note::note_text;
use reg_ranges::range::Range;
use std::alloc::{AllocError, Global};

// The table of the ranges up to its rows.
const RANGES: &str = "\
    <table class=\"ranges\"><caption>Ranges and their policies</caption><thead><tr>\
    <th scope=\"col\">Values</th><th scope=\"col\">Policy</th><th scope=\"col\">Note</th>\
    </tr></thead><tbody>";

// The end of that table, how the row of a value is found, and the table of the rows up to these.
const VALUES: &str = "</tbody></table>\
    <p>To find a value, follow the link of its range above. The rows below are in the order of their \
    values; a row such as 65-191 is about each value from 65 to 191.</p>\
    <table class=\"values\"><caption>Values</caption><thead><tr>\
    <th scope=\"col\">Value</th><th scope=\"col\">Description</th><th scope=\"col\">Reference</th>\
    <th scope=\"col\">Status</th><th scope=\"col\">Policy</th><th scope=\"col\">Since</th>\
    <th scope=\"col\">Expires</th><th scope=\"col\">Assignee</th></tr></thead><tbody>";

/// The page of a registry in portions: its ranges with their policies and notes, a picture of its
/// values, and the rows of its listing, each found by `v` and its first value. The first portion has
/// what stands above these rows, each other one a row, and the last what stands below.
#[derive(Drop)]
pub struct RegistryPage<'a> {
    page: &'a Page,
    notes: Option<&'a Notes>,
    changed: &'a str,
    rows: Vec<ListingRow<'a>>,
    next: Next,
}

impl<'a> RegistryPage<'a> {
    /// All of the page is to be given, with what is noted, and the moment of its last change, which is
    /// empty where it is not known. Only want of memory is an error.
    pub fn of(
        alloc: Global,
        page: &'a Page,
        notes: Option<&'a Notes>,
        changed: &'a str,
    ) -> Result<Self, AllocError>
        ensures { IfOk result
            (λ html. page_left html ≡ registry_page (option_copied notes.entry) changed.now page.now) }
    {
        Ok(RegistryPage {
            page,
            notes,
            changed,
            rows: rows(alloc, page)?,
            next: Next::Above,
        })
    }
}

impl Portions for RegistryPage<'_> {
    ghost rest = { page_left };

    fn push_next(&mut self, out: &mut Vec<u8>) -> Result<bool, AllocError> {
        let alloc = *out.allocator();
        match self.next {
            Next::Above => push_above(out, alloc, self.page, self.notes, self.changed)?,
            Next::Row(place) => match self.rows.get(place) {
                Some(row) => push_entry(out, alloc, self.notes, self.page.name.as_str(), row)?,
                None => push_below(out)?,
            },
            Next::Nothing => return Ok(false),
        }
        self.next = self.next.after(self.rows.len());
        Ok(true)
    }
}

// What stands above the rows of the listing.
fn push_above(
    out: &mut Vec<u8>,
    alloc: Global,
    page: &Page,
    notes: Option<&Notes>,
    changed: &str,
) -> Result<(), AllocError>
    ensures { OnOk result (Appended out.old.items out.new.items
        (above_rows (option_copied notes.entry) changed.now page.now.name (summary page.now)
        page.now.entries page.now.table.ranges)) }
{
    let summary = Summary::of(alloc, page)?;
    push_above_of(
        out,
        alloc,
        notes,
        changed,
        page.name.as_str(),
        &summary,
        page.entries.as_slice(),
        page.table.ranges(),
    )
}

fn push_above_of(
    out: &mut Vec<u8>,
    alloc: Global,
    notes: Option<&Notes>,
    changed: &str,
    name: &str,
    summary: &Summary,
    entries: &[PageEntry],
    ranges: &[Range],
) -> Result<(), AllocError>
    ensures { OnOk result (Appended out.old.items out.new.items
        (above_rows (option_copied notes.entry) changed.now name.now summary.now entries.now ranges.now)) }
{
    push_start(out, "../style.css", "../changes.atom", name)?;
    push_intro(out, notes, changed, name)?;
    push_bar(out, summary, entries)?;
    push(out, RANGES)?;
    push_range_rows(out, alloc, ranges)?;
    push(out, VALUES)?;
    Ok(())
}

// What is noted about a registry, its other files, where to apply, and when it was last changed.
fn push_intro(
    out: &mut Vec<u8>,
    notes: Option<&Notes>,
    changed: &str,
    name: &str,
) -> Result<(), AllocError>
    ensures { OnOk result
        (Shown out.old.items out.new.items (intro (option_copied notes.entry) changed.now name.now)) }
{
    push_noted(out, note_on(notes, name))?;
    push_links(out, name)?;
    push_apply(out, notes)?;
    push_framed(out, "<p>Last changed <time>", changed, "</time></p>")?;
    Ok(())
}

// Links to the first page, and to the same registry in other forms.
fn push_links(out: &mut Vec<u8>, name: &str) -> Result<(), AllocError>
    ensures { OnOk result (Shown out.old.items out.new.items (links name.now)) }
{
    push_all(
        out,
        &[
            Markup("<p><a href=\"../index.html\">All registries</a> <a href=\""),
            Text(name),
            Markup(".csv\">CSV</a> <a href=\""),
            Text(name),
            Markup(".json\">JSON</a> <a href=\""),
            Text(name),
            Markup(".xml\">XML</a></p>"),
        ],
    )?;
    Ok(())
}

fn push_range_rows(out: &mut Vec<u8>, alloc: Global, ranges: &[Range]) -> Result<(), AllocError>
    ensures { OnOk result
        (Shown out.old.items out.new.items (all_of (map range_row ranges.now))) }
{
    for range in ranges {
        push_range(out, alloc, range)?;
    }
    Ok(())
}

fn push_range(out: &mut Vec<u8>, alloc: Global, range: &Range) -> Result<(), AllocError>
    ensures { OnOk result
        (Shown out.old.items out.new.items (range_row range.now)) }
{
    let run = Run {
        lo: range.lo,
        hi: range.hi,
    };
    let values = format!(in alloc; "{run}")?;
    push_range_texts(
        out,
        u64::from(range.lo),
        values.as_str(),
        treatment_name(range.treatment),
        note_text(&range.note),
    )
}

fn push_range_texts<'a>(
    out: &mut Vec<u8>,
    first: u64,
    values: &'a str,
    policy: &'a str,
    note: &'a str,
) -> Result<(), AllocError>
    ensures { OnOk result
        (Shown out.old.items out.new.items (range_by first values.now policy.now note.now)) }
{
    push_all(
        out,
        &[
            Markup("<tr id=\"r"),
            Text(values),
            Markup("\"><th scope=\"row\"><a href=\"#v"),
            Number(first),
            Markup("\">"),
            Text(values),
            Markup("</a></th><td>"),
            Text(policy),
            Markup("</td><td>"),
            Text(note),
            Markup("</td></tr>\n"),
        ],
    )
}

// A row of the listing, with what is noted about its entry.
fn push_entry(
    out: &mut Vec<u8>,
    alloc: Global,
    notes: Option<&Notes>,
    registry: &str,
    row: &ListingRow<'_>,
) -> Result<(), AllocError>
    ensures { OnOk result
        (Shown out.old.items out.new.items
        (noted_row (option_copied notes.entry) registry.now (row_view row.now))) }
{
    let values = format!(in alloc; "{}", row.values)?;
    let first = first_text(alloc, row)?;
    let expiry = expiry_text(alloc, row)?;
    let note = of_row(alloc, notes, registry, row)?;
    push_entry_texts(
        out,
        u64::from(row.values.lo),
        values.as_str(),
        row.description,
        note,
        shown_status(row),
        named_policy(row.policy),
        first.as_str(),
        expiry.as_str(),
        assignee_text(row),
    )
}

fn push_entry_texts<'a>(
    out: &mut Vec<u8>,
    number: u64,
    values: &'a str,
    description: &'a str,
    note: Option<&'a Note>,
    status: &'a str,
    policy: &'a str,
    first: &'a str,
    expiry: &'a str,
    assignee: &'a str,
) -> Result<(), AllocError>
    ensures { OnOk result
        (Shown out.old.items out.new.items
        (described_row number values.now description.now (option_copied note.entry)
        (status.now ∷ policy.now ∷ first.now ∷ expiry.now ∷ assignee.now ∷ []))) }
{
    push_described(out, number, values, description, note)?;
    push(out, "<td>")?;
    push_reference(out, reference_in(note))?;
    push_all(
        out,
        &[
            Markup("</td><td>"),
            Text(status),
            Markup("</td><td>"),
            Text(policy),
            Markup("</td><td>"),
            Text(first),
            Markup("</td><td>"),
            Text(expiry),
            Markup("</td><td>"),
            Text(assignee),
            Markup("</td></tr>\n"),
        ],
    )?;
    Ok(())
}

// A row up to its description, with what is noted below that.
fn push_described<'a>(
    out: &mut Vec<u8>,
    number: u64,
    values: &'a str,
    description: &'a str,
    note: Option<&'a Note>,
) -> Result<(), AllocError>
    ensures { OnOk result
        (Appended out.old.items out.new.items
        (described_start number values.now description.now (option_copied note.entry))) }
{
    push_all(
        out,
        &[
            Markup("<tr id=\"v"),
            Number(number),
            Markup("\"><th scope=\"row\"><a href=\"#v"),
            Number(number),
            Markup("\">"),
            Text(values),
            Markup("</a></th><td>"),
            Text(description),
        ],
    )?;
    let title = title_in(note);
    push_framed(
        out,
        "<div class=\"note\"><strong>",
        title,
        "</strong></div>",
    )?;
    push_framed(out, "<div class=\"note\">", words_in(note), "</div>")?;
    push(out, "</td>")?;
    Ok(())
}
