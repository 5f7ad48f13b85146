//! The rows, commands, changes and replies of the office, and the rule by which each command is
//! decided.
#![tactic(auto)]

pub mod advice;
pub mod ask;
pub mod ask_kind;
pub mod capability;
pub mod case_file;
pub mod change;
pub mod command;
pub mod counts;
pub mod decide;
mod deed_parts;
pub mod entry;
pub mod holding;
pub mod item;
pub mod journal;
pub mod laws;
pub mod link;
pub mod page;
pub mod queue;
pub mod refusal;
pub mod reply;
pub mod request;
pub mod rows;
pub mod text;
pub mod told;
pub mod wire_refusal;

pub use case_file::CaseFile as File;
