//! Serves connections over HTTP/1.1 (RFC 9112), one after the other, while it waits for all of them at
//! once.
#![tactic(auto)]

mod completeness;
pub mod dates;
pub mod front;
pub mod known;
pub mod laws;
pub mod listener;
pub mod log;
pub mod peers;
mod place;
mod schedule;
mod socket;
mod table;
pub mod tcp;
