//! What brings an office of an older version to the newest.
#![tactic(auto)]

pub mod migrate;
