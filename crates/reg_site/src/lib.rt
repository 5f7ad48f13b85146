//! The files of a published site as printers: the bytes of each are a definition over what an office
//! answers anybody. No file, no socket and no clock is used here.
#![tactic(auto)]

mod bar;
pub mod changes;
pub mod files;
pub mod index;
pub mod index_tree;
pub mod laws;
pub mod listing;
mod policy;
pub mod recent;
pub mod records;
pub mod registry;
mod status;
pub mod style;
pub mod summary;
pub mod sums;
pub mod tree;
