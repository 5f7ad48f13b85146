//! The bytes of a file in portions.
ghost use Rattle.std.specs.Prelude.{◌≡◌, ℕ, List, IfOk};
ghost use Rattle.reg_pages.specs.Portions.{GivesIfMore, after};

use std::alloc::AllocError;

/// How many bytes a portion has at most of bytes that stand whole.
const PORTION_BYTES: usize = 16_384;

/// What gives the bytes of a file in portions, so that they never need to stand whole.
pub trait Portions {
    /// The bytes that are still to be given.
    ghost rest: { Self → List ℕ };

    /// Appends the next portion, which has a byte at least, and tells whether there was one. Only want
    /// of memory is an error.
    fn push_next(&mut self, out: &mut Vec<u8>) -> Result<bool, AllocError>
        ensures { IfOk result
            (λ more. GivesIfMore more out.old.items out.new.items (rest self.old) (rest self.new)) };
}

/// Bytes that stand whole.
#[derive(Drop)]
pub struct Whole<'a> {
    rest: &'a [u8],
}

impl<'a> Whole<'a> {
    /// All of these bytes are to be given.
    pub fn of(bytes: &'a [u8]) -> Self
        ensures { result.rest.now ≡ bytes.now }
    {
        Whole { rest: bytes }
    }
}

impl Portions for Whole<'_> {
    ghost rest = { λ whole. whole.rest.now };

    fn push_next(&mut self, out: &mut Vec<u8>) -> Result<bool, AllocError> {
        if self.rest.is_empty() {
            return Ok(false);
        }
        let (portion, rest) = self.rest.split_at(self.rest.len().min(PORTION_BYTES));
        out.extend_from_slice(portion)?;
        self.rest = rest;
        Ok(true)
    }
}

/// What is given next of bytes that have rows.
#[derive(Clone, Copy)]
pub enum Next {
    /// What stands above the rows.
    Above,
    /// The row at this place, or, where there is none, what stands below the rows.
    Row(usize),
    /// Nothing: all was given.
    Nothing,
}

impl Next {
    /// What is given after this, where there are so many rows.
    pub fn after(self, rows: usize) -> Self
        ensures { result ≡ after self rows }
    {
        match self {
            Next::Above => Next::Row(0),
            Next::Row(place) if place < rows => Next::Row(place + 1),
            Next::Row(_) | Next::Nothing => Next::Nothing,
        }
    }
}
