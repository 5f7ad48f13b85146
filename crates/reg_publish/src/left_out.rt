//! Notes that no page shows.
use reg_core::told::Told;
use reg_pages::notes::{AUTHORITY, DESK, Notes};
use reg_source::told::page_in;
use reg_source::unpublished::Unpublished;
use std::alloc::Global;

/// The notes that no page shows, since they are on a registry or an entry that is not there.
#[derive(Debug, Drop)]
pub struct LeftOut {
    /// How many there are.
    pub count: usize,
    /// What the first is on, by name: a registry, or a registry, a comma and a value. Empty where there
    /// is none.
    pub first: String,
}

/// Which of these notes are on nothing that was told. `Read` where something else than registries was
/// told.
pub(crate) fn left_out(
    alloc: Global,
    notes: Option<&Notes>,
    pages: &[Told],
) -> Result<LeftOut, Unpublished> {
    let mut left = LeftOut {
        count: 0,
        first: String::new(alloc),
    };
    let Some(notes) = notes else {
        return Ok(left);
    };
    for thing in notes.things() {
        if !is_shown(thing.as_str(), pages)? {
            if left.count == 0 {
                left.first = String::from_str(alloc, thing.as_str())?;
            }
            left.count = left.count.saturating_add(1);
        }
    }
    Ok(left)
}

// Whether a thing is the authority, its desk, a registry that was told, or an entry of one.
fn is_shown(thing: &str, pages: &[Told]) -> Result<bool, Unpublished> {
    if thing == AUTHORITY || thing == DESK {
        return Ok(true);
    }
    match thing.split_once(',') {
        None => has_registry(thing, pages),
        Some((name, value)) => match value.parse::<u32>() {
            Ok(value) => has_entry(name, value, pages),
            Err(_) => Ok(false),
        },
    }
}

fn has_registry(name: &str, pages: &[Told]) -> Result<bool, Unpublished> {
    for told in pages {
        if page_in(told)?.name.as_str() == name {
            return Ok(true);
        }
    }
    Ok(false)
}

fn has_entry(name: &str, value: u32, pages: &[Told]) -> Result<bool, Unpublished> {
    for told in pages {
        let page = page_in(told)?;
        if page.name.as_str() == name {
            let entries = page.entries.as_slice();
            return Ok(
                entries
                    .binary_search_by_key(&value, |entry| entry.value)
                    .is_ok(),
            );
        }
    }
    Ok(false)
}
