//! The rows of an office as records of tables.
#![tactic(auto)]

pub mod acts;
pub mod advice;
pub mod advised;
pub mod blocks;
pub mod caps;
pub mod column;
pub mod entries;
pub mod holds;
pub mod laws;
pub mod links;
pub mod minutes;
pub mod office;
pub mod pool;
pub mod queue;
pub mod queued;
pub mod ranges;
pub mod record;
pub mod registries;
pub mod requests;
pub mod word;
