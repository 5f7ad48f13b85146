//! The lines of one office from its founding on, and what goes on where they end: as scripts and over
//! HTTP, over lists and over tables in memory.
mod after;
mod alike;
mod floods;
mod generated;
mod lines;
mod messages;
mod refused;
pub mod rows;
mod stored;
mod wide;
