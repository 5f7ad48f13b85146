//! What is free in an office, kept beside its rows, wherever they are; and the sets of numbers and
//! the free blocks of a pool by which it is found.
#![tactic(auto)]

mod block_spans;
pub mod laws;
pub mod least;
pub mod places;
mod pool;
pub mod pool_places;
pub mod runs;
mod sets;
mod sizes;
pub mod vacancies;
mod value_spans;
pub mod values;
