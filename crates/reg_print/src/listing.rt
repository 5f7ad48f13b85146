//! Registries and blocks as listings: their rows, and the records that are printed of them.

pub mod blocks;
pub mod registry;
pub mod rows;
pub mod writing;
