//! Requests as HTTP/1.1 writes them (RFC 9112): the head, read in pieces as they come, and the
//! body that it announces.
#![tactic(auto)]

mod body;
mod fields;
mod head;
pub mod laws;
pub mod malformed;
pub mod message;
pub mod reading;
pub mod unread;
pub mod watch;
