//! What the members of a JSON object say, each in its form.
#![tactic(auto)]

pub mod members;
