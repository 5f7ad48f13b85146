//! A note.
use crate::words::Words;

/// What is noted about a thing; what is empty is not there.
#[derive(Debug, Drop)]
pub struct Note {
    /// Its title, as its owner writes it.
    pub title: Words,
    /// Where it is specified; of the authority, where to apply.
    pub reference: Words,
    /// Anything else.
    pub note: Words,
}
