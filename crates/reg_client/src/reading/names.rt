//! Reads the names of registries.
use crate::reading::members::Members;
use json::Scratch;
use reg_core::rows::Rows;
use reg_core::text::Name;
use reg_source::unpublished::Unpublished;
use std::alloc::Global;

/// The names in an array.
pub(super) fn read(alloc: Global, body: &[u8]) -> Result<Rows<Name>, Unpublished> {
    let mut scratch = Scratch::new(alloc);
    let mut members = Members::new(&mut scratch, body)?;
    read_names(alloc, &mut members)
}

fn read_names(alloc: Global, members: &mut Members<'_>) -> Result<Rows<Name>, Unpublished> {
    members.open_array()?;
    let mut names = Vec::new(alloc);
    push_names(&mut names, members)?;
    Ok(Rows::from_vec(names))
}

fn push_names(names: &mut Vec<Name>, members: &mut Members<'_>) -> Result<(), Unpublished> {
    for _ in 0..u64::MAX {
        if members.closes_array() {
            return members.end();
        }
        match Name::read(members.item()?.as_bytes()) {
            Some(name) => names.push(name)?,
            None => return Err(Unpublished::Read),
        }
    }
    Err(Unpublished::Read)
}
