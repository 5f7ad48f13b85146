//! An office kept in SQLite tables.
#![tactic(auto)]

pub mod copier;
mod copying;
mod following;
pub mod keeper;
pub mod look;
pub mod open;
pub mod opener;
mod originals;
pub mod snapshot;
pub mod steady;
pub mod trouble;
mod vacancies;
