//! The tables of an office, and what statements do to them.
#![tactic(auto)]

pub mod make;
pub mod reports;
mod same;
pub mod schema;
pub mod texts;
pub mod version;
pub mod write;
