//! What is noted about a thing, as a page shows it.
ghost use Rattle.std.specs.Prelude.{◌≡◌, IfOk, OnOk};
ghost use Rattle.std.specs.Option.{option_copied};
ghost use Rattle.reg_pages.specs.Appended.{Shown};
ghost use Rattle.reg_print.specs.Listing.{row_view};
ghost use Rattle.reg_pages.specs.Noted.{apply_at, apply_lines, note_of_row, note_shown, noted, noted_in, reference_in, title_in, words_in};

use crate::markup::Piece::{Markup, Text};
use crate::markup::{push, push_all, push_framed};
use crate::note::Note;
use crate::notes::{AUTHORITY, DESK, Notes};
use crate::reference::push_reference;
use reg_print::listing::rows::ListingRow;
use std::alloc::{AllocError, Global};

// ---- Looked up

/// The note on a thing, where there are notes: on `AUTHORITY`, on `DESK`, or on the registry of this name.
pub fn note_on<'a>(notes: Option<&'a Notes>, thing: &str) -> Option<&'a Note>
    ensures { option_copied result ≡ noted_in (option_copied notes.entry) thing.now }
{
    match notes {
        Some(notes) => notes.at(thing),
        None => None,
    }
}

/// The note on the entry of a row of this registry; none where it has none.
pub fn of_row<'a>(
    alloc: Global,
    notes: Option<&'a Notes>,
    name: &str,
    row: &ListingRow<'_>,
) -> Result<Option<&'a Note>, AllocError>
    ensures { IfOk result
        (λ o. option_copied o ≡ note_of_row (option_copied notes.entry) name.now (row_view row.now)) }
{
    match (notes, row.entry) {
        (Some(notes), Some(entry)) => notes.of_entry(alloc, name, entry.value),
        _ => Ok(None),
    }
}

// ---- What it says

/// The title of a note; empty where there is none.
pub fn title_in<'a>(note: Option<&'a Note>) -> &'a str
    ensures { result.now ≡ title_in (option_copied note.entry) }
{
    match note {
        Some(note) => note.title.as_str(),
        None => "",
    }
}

/// The reference of a note; empty where there is none.
pub fn reference_in<'a>(note: Option<&'a Note>) -> &'a str
    ensures { result.now ≡ reference_in (option_copied note.entry) }
{
    match note {
        Some(note) => note.reference.as_str(),
        None => "",
    }
}

/// What else a note says; empty where there is none.
pub fn words_in<'a>(note: Option<&'a Note>) -> &'a str
    ensures { result.now ≡ words_in (option_copied note.entry) }
{
    match note {
        Some(note) => note.note.as_str(),
        None => "",
    }
}

// ---- Shown

/// Appends what is noted; nothing where there is no note. Only want of memory is an error.
pub fn push_noted(out: &mut Vec<u8>, note: Option<&Note>) -> Result<(), AllocError>
    ensures { OnOk result (Shown out.old.items out.new.items (noted (option_copied note.entry))) }
{
    match note {
        Some(note) => push_note(out, note),
        None => Ok(()),
    }
}

fn push_note(out: &mut Vec<u8>, note: &Note) -> Result<(), AllocError>
    ensures { OnOk result (Shown out.old.items out.new.items (note_shown note.now)) }
{
    push(out, "<div class=\"note\">")?;
    push_framed(out, "<strong>", note.title.as_str(), "</strong> ")?;
    push_reference(out, note.reference.as_str())?;
    push_all(
        out,
        &[Markup(" "), Text(note.note.as_str()), Markup("</div>")],
    )?;
    Ok(())
}

// ---- Where to apply

/// Appends a line that says where to apply, and what is noted about the desk; nothing where the notes do
/// not say it. Only want of memory is an error.
pub fn push_apply(out: &mut Vec<u8>, notes: Option<&Notes>) -> Result<(), AllocError>
    ensures { OnOk result
        (Shown out.old.items out.new.items (apply_lines (option_copied notes.entry))) }
{
    push_apply_at(out, reference_in(note_on(notes, AUTHORITY)))?;
    push_noted(out, note_on(notes, DESK))?;
    Ok(())
}

fn push_apply_at(out: &mut Vec<u8>, reference: &str) -> Result<(), AllocError>
    ensures { OnOk result (Shown out.old.items out.new.items (apply_at reference.now)) }
{
    if reference.is_empty() {
        return Ok(());
    }
    push(out, "<p>To apply: ")?;
    push_reference(out, reference)?;
    push(out, "</p>")?;
    Ok(())
}
