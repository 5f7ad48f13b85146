//! What a keeper has beside the tables of an office.
use reg_vacancies::vacancies::Vacancies;

/// What is found in the rows of an office as they are read, and kept from then on.
#[derive(Drop)]
pub struct Beside {
    /// What is free.
    pub vacancies: Vacancies,
    /// The number of the last act of the journal, 0 where there is none.
    pub last: u32,
}
