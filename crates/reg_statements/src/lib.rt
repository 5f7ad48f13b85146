//! Statements over the tables of an office, whose rows are read as values, and what the tables hold.
#![tactic(auto)]

pub mod loads;
pub mod read;
pub mod select;
pub mod write;
