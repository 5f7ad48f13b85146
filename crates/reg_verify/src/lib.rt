//! Verifies a published folder: that its history is whole, and that its files say what it says.
#![tactic(auto)]

mod files;
pub mod flaw;
pub mod folder;
mod index;
pub mod part;
mod registries;
mod strays;
pub mod verifying;
