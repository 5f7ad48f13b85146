//! The last changes of the registers, as a page and as an Atom feed (RFC 4287).
ghost use Rattle.std.specs.Prelude.{◌≡◌, ◌++◌, [], map, take, IfOk, OnOk};
ghost use Rattle.reg_pages.specs.Appended.{Appended, Shown};
ghost use Rattle.reg_pages.specs.Escape.{escaped};
ghost use Rattle.reg_pages.specs.Markup.{all_of};
ghost use Rattle.reg_pages.specs.Noted.{apply_lines};
ghost use Rattle.std.specs.Option.{option_copied};
ghost use Rattle.reg_site.specs.Changes.{change_entry, change_row, change_rows, changes_feed, changes_page, changes_shown, changes_table, feed_start, last_moment, month_row, place_of, shown};

use reg_pages::document::{push_end, push_start};
use reg_pages::markup::Piece::{Markup, Number, Text};
use reg_pages::markup::{push, push_all, push_framed};
use reg_pages::noted::push_apply;
use reg_pages::notes::Notes;
use reg_pages::table::push_group;
use std::alloc::{AllocError, Global};

/// How many changes the page shows.
const MOST_ON_PAGE: usize = 200;

/// How many changes the feed has.
const MOST_IN_FEED: usize = 100;

// Links to the first page, and to the changes in other forms.
const LINKS: &str = "\
    <p><a href=\"index.html\">All registries</a> <a href=\"changes.csv\">CSV</a> \
    <a href=\"changes.atom\">Atom</a></p>";

// The table up to its rows.
const COLUMNS: &str = "\
    <table class=\"changes\"><caption>Latest changes</caption><thead><tr>\
    <th scope=\"col\">Number</th><th scope=\"col\">Date (UTC)</th><th scope=\"col\">Registry</th>\
    <th scope=\"col\">Change</th><th scope=\"col\">Value</th><th scope=\"col\">Description</th>\
    </tr></thead><tbody>";

/// A change of the registers, as texts.
#[derive(Clone, Copy)]
pub struct ChangeRow<'a> {
    /// Counted from 1.
    pub number: u64,
    /// When it was published, as `2026-11-28T08:00:00Z`.
    pub moment: &'a str,
    /// The month of that, as `2026-11`.
    pub month: &'a str,
    /// The name of the register; empty of a prefix, a block and a new register.
    pub register: &'a str,
    /// `entry`, `term`, `prefix`, `block`, `range`, or `registry` of a new register.
    pub kind: &'a str,
    /// What was done, in words, as `assigned`, or `now until ` before a day.
    pub words: &'a str,
    /// The day that these words want; empty where they want none.
    pub until: &'a str,
    /// The value or the values, the digits, or the name of a new register.
    pub value: &'a str,
    pub description: &'a str,
    /// The digest of the record of this change, in lower-case hexadecimal.
    pub digest: &'a str,
}

// ---- The page

/// The page of the last 200 changes by month, of which the last one comes first, with where to apply, if
/// these notes say so. Only want of memory is an error.
pub fn changes_page(
    alloc: Global,
    notes: Option<&Notes>,
    changes: &[ChangeRow<'_>],
) -> Result<Vec<u8>, AllocError>
    ensures { IfOk result
        (λ v. v.items ≡ changes_page (apply_lines (option_copied notes.entry)) (map shown changes.now)) }
{
    let mut out = Vec::new(alloc);
    push_start(&mut out, "style.css", "changes.atom", "Changes")?;
    push(&mut out, LINKS)?;
    push_apply(&mut out, notes)?;
    push_changes(&mut out, first_of(changes, MOST_ON_PAGE))?;
    push_end(&mut out)?;
    Ok(out)
}

// At most so many changes, from the first on.
fn first_of<'a, 'b>(changes: &'a [ChangeRow<'b>], most: usize) -> &'a [ChangeRow<'b>]
    ensures { result.now ≡ take most changes.now }
{
    if most < changes.len() {
        &changes[..most]
    } else {
        changes
    }
}

fn push_changes(out: &mut Vec<u8>, changes: &[ChangeRow<'_>]) -> Result<(), AllocError>
    ensures { OnOk result (Shown out.old.items out.new.items (changes_shown (map shown changes.now))) }
{
    match changes.first() {
        None => push(out, "<p>Nothing has been changed yet.</p>"),
        Some(_) => push_table(out, changes),
    }
}

fn push_table(out: &mut Vec<u8>, changes: &[ChangeRow<'_>]) -> Result<(), AllocError>
    ensures { OnOk result
        (Shown out.old.items out.new.items (changes_table (map shown changes.now))) }
{
    push(out, COLUMNS)?;
    push_rows(out, changes)?;
    push(out, "</tbody></table>")?;
    Ok(())
}

// A row for each change, and one for each month above its changes.
fn push_rows(out: &mut Vec<u8>, changes: &[ChangeRow<'_>]) -> Result<(), AllocError>
    ensures { OnOk result
        (Shown out.old.items out.new.items (change_rows [] (map shown changes.now))) }
{
    let mut before = "";
    for change in changes {
        push_month(out, before, change.month)?;
        push_row(out, change)?;
        before = change.month;
    }
    Ok(())
}

// A month as a row, unless it is the one before.
fn push_month(out: &mut Vec<u8>, before: &str, month: &str) -> Result<(), AllocError>
    ensures { OnOk result (Shown out.old.items out.new.items (month_row before.now month.now)) }
{
    if before == month {
        return Ok(());
    }
    push_group(out, month, "6")
}

fn push_row(out: &mut Vec<u8>, change: &ChangeRow<'_>) -> Result<(), AllocError>
    ensures { OnOk result (Shown out.old.items out.new.items (change_row (shown change.now))) }
{
    push_all(
        out,
        &[
            Markup("<tr id=\"c"),
            Number(change.number),
            Markup("\"><th scope=\"row\"><a href=\"#c"),
            Number(change.number),
            Markup("\">"),
            Number(change.number),
            Markup("</a></th><td>"),
            Text(change.moment),
            Markup("</td><td>"),
            Text(change.register),
            Markup("</td><td>"),
            Text(change.words),
            Text(change.until),
            Markup("</td><td><a href=\""),
        ],
    )?;
    push_place(out, change)?;
    push_all(
        out,
        &[
            Markup("\">"),
            Text(change.value),
            Markup("</a></td><td>"),
            Text(change.description),
            Markup("</td></tr>\n"),
        ],
    )?;
    Ok(())
}

// Where what was changed is shown, as the value of an attribute.
fn push_place(out: &mut Vec<u8>, change: &ChangeRow<'_>) -> Result<(), AllocError>
    ensures { OnOk result (Appended out.old.items out.new.items
        (λ rest. escaped (place_of (shown change.now)) ++ rest)) }
{
    let value = Text(change.value);
    if change.kind == "registry" {
        push_all(out, &[Markup("registries/"), value, Markup(".html")])
    } else if change.kind == "block" {
        push_all(out, &[Markup("blocks.html#b"), value])
    } else if change.kind == "prefix" {
        push(out, "index.html")
    } else {
        let register = Text(change.register);
        push_all(
            out,
            &[Markup("registries/"), register, Markup(".html#v"), value],
        )
    }
}

// ---- The feed

/// The feed of the last 100 changes, of which the last one comes first, by its title and its id, which
/// has to be the same for good. The id of each change is made of its digest. Only want of memory is an
/// error.
pub fn changes_feed(
    alloc: Global,
    title: &str,
    id: &str,
    changes: &[ChangeRow<'_>],
) -> Result<Vec<u8>, AllocError>
    ensures { IfOk result (λ v. v.items ≡ changes_feed title.now id.now (map shown changes.now)) }
{
    let mut out = Vec::new(alloc);
    push_feed_start(&mut out, title, id, last_moment(changes))?;
    push_entries(&mut out, first_of(changes, MOST_IN_FEED))?;
    push(&mut out, "</feed>\n")?;
    Ok(out)
}

// When the last change was.
fn last_moment<'a>(changes: &[ChangeRow<'a>]) -> &'a str
    ensures { result.now ≡ last_moment (map shown changes.now) }
{
    match changes.first() {
        Some(change) => change.moment,
        None => "1970-01-01T00:00:00Z",
    }
}

fn push_feed_start<'a>(
    out: &mut Vec<u8>,
    title: &'a str,
    id: &'a str,
    moment: &'a str,
) -> Result<(), AllocError>
    ensures { OnOk result
        (Appended out.old.items out.new.items (feed_start title.now id.now moment.now)) }
{
    push_all(
        out,
        &[
            Markup("<?xml version=\"1.0\" encoding=\"UTF-8\"?>\n"),
            Markup("<feed xmlns=\"http://www.w3.org/2005/Atom\"><title>"),
            Text(title),
            Markup("</title><id>"),
            Text(id),
            Markup("</id><updated>"),
            Text(moment),
            Markup("</updated><author><name>"),
            Text(title),
            Markup("</name></author><link href=\"changes.html\"></link>\n"),
        ],
    )
}

fn push_entries(out: &mut Vec<u8>, changes: &[ChangeRow<'_>]) -> Result<(), AllocError>
    ensures { OnOk result
        (Shown out.old.items out.new.items (all_of (map change_entry (map shown changes.now)))) }
{
    for change in changes {
        push_entry(out, change)?;
    }
    Ok(())
}

fn push_entry(out: &mut Vec<u8>, change: &ChangeRow<'_>) -> Result<(), AllocError>
    ensures { OnOk result (Shown out.old.items out.new.items (change_entry (shown change.now))) }
{
    push(out, "<entry><title>")?;
    push_framed(out, "", change.register, " ")?;
    push_all(
        out,
        &[
            Text(change.value),
            Markup(": "),
            Text(change.words),
            Text(change.until),
            Markup("</title><id>urn:sha256:"),
            Text(change.digest),
            Markup("</id><updated>"),
            Text(change.moment),
            Markup("</updated><link href=\""),
        ],
    )?;
    push_place(out, change)?;
    push_all(
        out,
        &[
            Markup("\"></link><summary>"),
            Text(change.description),
            Markup("</summary></entry>\n"),
        ],
    )?;
    Ok(())
}
