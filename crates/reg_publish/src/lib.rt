//! Publishes an office: what anybody is told by it, as files of a folder, with a history that goes on.
#![tactic(auto)]

pub mod earlier;
pub mod faults;
mod indexes;
pub mod left_out;
mod placing;
pub mod publishing;
mod registries;
pub mod told;
