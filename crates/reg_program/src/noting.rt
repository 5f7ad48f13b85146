//! Reads the notes that a site shows.
ghost use Rattle.std.specs.Prelude.{◌≡◌, is_some, IfOk};

use crate::faults::{JobFailure, Undone};
use crate::inputs::notes_of;
use reg_pages::notes::Notes;
use reg_pages::reading::{NotesFault, NotesPart, read_notes};
use std::alloc::{AllocError, Global};

/// The notes in the file at a path, if there is one. `Large` where it has more than 1,048,576 bytes,
/// `Read` where it cannot be read, and `Explained` with `Notes` where it is no file of notes.
pub fn notes_at(
    rt: &HostRuntime,
    alloc: Global,
    path: &Option<String>,
) -> Result<Option<Notes>, Undone>
    ensures { IfOk result (λ notes. is_some notes ≡ is_some path.now) }
{
    match path {
        Some(path) => Ok(Some(notes_in(rt, alloc, path.as_str())?)),
        None => Ok(None),
    }
}

fn notes_in(rt: &HostRuntime, alloc: Global, path: &str) -> Result<Notes, Undone> {
    let bytes = notes_of(rt, alloc, path)?;
    match read_notes(alloc, bytes.as_slice()) {
        Ok(notes) => Ok(notes),
        Err(fault) => Err(undone(alloc, fault)?),
    }
}

// Rows count from 1 here, as people count them.
fn undone(alloc: Global, fault: NotesFault) -> Result<Undone, AllocError> {
    let why = match fault {
        NotesFault::Memory => return Ok(Undone::Fault(JobFailure::Memory)),
        NotesFault::Large => return Ok(Undone::Fault(JobFailure::Large)),
        NotesFault::Header => {
            String::from_str(
                alloc,
                "the first row is not registry,value,title,reference,note",
            )?
        }
        NotesFault::Row(place, part) => {
            let number = place.saturating_add(1);
            format!(in alloc; "row {number}: {}", words_of(part))?
        }
    };
    Ok(Undone::Explained(JobFailure::Notes, why))
}

// What is wrong with a row.
fn words_of(part: NotesPart) -> &'static str {
    match part {
        NotesPart::Columns => "it has not five fields",
        NotesPart::Registry => "the registry has not the form of a name",
        NotesPart::Value => "the value is no number of a registry",
        NotesPart::Text => "a text is too long, or has other characters than it may have",
        NotesPart::Repeated => "an earlier row is on the same thing",
    }
}
