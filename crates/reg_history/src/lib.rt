//! A history of the published registers that nobody can rewrite unnoticed: what is recorded of what is
//! published, how it is read back, and what was lost since.
#![tactic(auto)]

pub mod acts;
pub mod chain;
mod fields;
pub mod history;
pub mod laws;
pub mod moment;
pub mod overview;
pub mod published;
mod reading;
pub mod recorder;
mod texts;
