//! Facts that a test wants to hold.
use std::test::Fail;

/// The test fails at this, and says what it wants, unless the fact holds.
pub fn ensure(holds: bool, what: &str) -> Result<(), Fail> {
    if holds { Ok(()) } else { Err(what.into()) }
}
