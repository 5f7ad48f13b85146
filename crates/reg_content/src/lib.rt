//! The content of an office in SQLite tables: its requests, holdings and capabilities, and its changes.
#![tactic(auto)]

pub mod blocks;
pub mod caps;
pub mod change;
mod give;
pub mod links;
pub mod pending;
pub mod requests;
pub mod reviews;
