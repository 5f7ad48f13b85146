//! The table of requests.

mod asks;
pub mod laws;
mod read;
mod states;
pub mod values;
pub mod words;

// The columns, in the order of the table.
const ACCOUNT: usize = 0;

const REFERENCE: usize = 1;

const KIND: usize = 2;

const REGISTRY: usize = 3;

const VALUE: usize = 4;

const LEAST: usize = 5;

const LABEL: usize = 6;

const CONTACT: usize = 7;

const SPECIFICATION: usize = 8;

const RFC_NUMBER: usize = 9;

const RFC_STREAM: usize = 10;

const RFC_TRACK: usize = 11;

const MINUTE: usize = 12;

const DRAFT: usize = 13;

const STABLE: usize = 14;

const INTEREST: usize = 15;

const CHAIR: usize = 16;

const DIRECTOR: usize = 17;

const WILL_BE_RFC: usize = 18;

const SIZE: usize = 19;

const ORGANIZATION: usize = 20;

const ADDRESS: usize = 21;

const STATE: usize = 22;

const GIVEN: usize = 23;

const REASON: usize = 24;

// How many there are.
const COUNT: usize = 25;
