//! What each command about requests does over whatever keeps the content of an office: who may give it,
//! which rows it needs, what is decided over them, and the change that is made.
#![tactic(auto)]

pub mod admission;
mod agents;
pub mod applicant;
pub mod clerk;
mod desk;
pub mod expert;
mod holdings;
