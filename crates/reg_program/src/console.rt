//! What a job reads and writes.
use std::io::{Read, Write};

/// Standard input, output and error, as a job is given them.
#[derive(Drop)]
pub struct Console<'a, R: Read, W: Write, E: Write> {
    /// Standard input.
    pub input: &'a mut R,
    /// Standard output.
    pub output: &'a mut W,
    /// Standard error.
    pub errors: &'a mut E,
}
