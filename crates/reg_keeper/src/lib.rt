//! What an office asks of whatever keeps its content.
#![tactic(auto)]

pub mod keeper;
