//! The rows of an office in SQLite tables: what is asked of each table that no request is in, and how rows
//! are found, listed, added and taken away.
#![tactic(auto)]

pub mod acts;
pub mod advice;
pub mod arrivals;
pub mod entries;
pub mod holds;
pub mod journal;
pub mod kept;
pub mod minutes;
pub mod pool;
pub mod queue;
pub mod queued;
pub mod registries;
mod rows;
pub mod whole;
