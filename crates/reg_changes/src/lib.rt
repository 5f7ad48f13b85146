//! What is published, as facts; and what has to be recorded of it, by what was said before. Replaying what
//! was recorded says what is published.
#![tactic(auto)]

pub mod change;
pub mod field;
pub mod said;
