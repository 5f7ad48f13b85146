//! Requests and answers in bytes: the command that a method, a path and a body spell, the status
//! and body of each answer, scripts, whose lines are answered in turn, and requests over HTTP/1.1
//! (RFC 9112), of which one is read and answered.
#![tactic(auto)]

mod answering;
pub mod command;
pub mod exchange;
pub mod laws;
pub mod log;
pub mod response;
pub mod script;
pub mod sending;
pub mod serving;
pub mod wire_fault;

pub use reg_core::wire_refusal;
pub use reg_head::{malformed, message, reading, unread, watch};
pub use reg_print::answer;
