//! The jobs of the program, and the words of a command line that ask for them.
#![tactic(auto)]

pub mod command_line;
mod definition;
mod help;
pub mod jobs;
