//! The keeper in memory.
#![tactic(auto)]

mod groups;
pub mod lists;
mod maps;

pub use reg_keeper::keeper;
