//! The office: founding, and one command at a time over whatever keeps its content; and its laws.
#![tactic(auto)]

mod counting;
mod found;
pub mod laws;
mod office;
mod revocation;
mod stamps;

pub use counting::{AllCounts, RequestCounts};
pub use found::FoundFault;
pub use office::Office;
pub use revocation::{Choice, RevokeFault};
