//! Reads commands from bytes: which command a method, a path and a body spell, or the first
//! refusal.
#![tactic(auto)]

mod bodies;
pub mod command;
pub mod laws;
mod path;
mod range_file;
pub mod route;
pub mod shown;
