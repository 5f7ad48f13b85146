//! The files of a published folder, as answers to the requests below `/site/`.
#![tactic(auto)]

pub mod answers;
pub mod files;
mod head;
pub mod laws;
mod media;
mod segments;
pub mod wanted;
