//! Days of the Gregorian calendar, the terms of entries, and the evidence that an early allocation
//! asks for (RFC 7120).
#![tactic(auto)]

mod civil;
pub mod day;
pub mod day_reading;
pub mod evidence;
pub mod laws;
pub mod requirements;
pub mod term;
