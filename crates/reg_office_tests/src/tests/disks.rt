//! Offices in tables over disks in memory, which stop at each call of a line, of a founding and of an
//! opening.
mod asking;
mod calls;
mod failing;
mod left;
mod lines;
mod making;
mod openings;
mod resumed;
mod rows;
mod sessions;
