//! What the pages of a site show alike: HTML, bytes in portions, references and notes; and the page of
//! the blocks, which needs nothing else.
#![tactic(auto)]

pub mod blocks;
pub mod document;
pub mod escape;
pub mod laws;
pub mod markup;
pub mod note;
pub mod noted;
pub mod notes;
pub mod portions;
pub mod reading;
pub mod reference;
pub mod table;
pub mod words;
