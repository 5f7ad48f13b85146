//! Prints answers as bytes: the status and the body of each, which is JSON or, for a listing, CSV.
#![tactic(auto)]

pub mod answer;
pub mod asks;
mod bodies;
pub mod comparing;
pub mod detail;
pub mod laws;
pub mod listing;
pub mod note;
pub mod parts;
mod printing;
pub mod refusal;
