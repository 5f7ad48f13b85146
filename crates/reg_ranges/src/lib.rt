//! Policies of registries, their ranges of values, and the evidence that an assignment asks for.
#![tactic(auto)]

pub mod evidence;
pub mod formed;
pub mod free;
pub mod laws;
pub mod number;
pub mod policy;
pub mod range;
pub mod range_file;
pub mod requirements;
pub mod table;
pub mod text;
