//! Comparisons of what a test found with what it wants. Each stands in a function of its own, which
//! is proved once: written out in a test, it is proved there again, for seconds each time.
ghost use Rattle.std.specs.Prelude.{◌≡◌, true};

use std::fmt::Debug;
use std::process::Abort;

/// Stops the test, and says what differs, unless the value is the wanted one.
pub fn expect<T: PartialEq + Debug + Copy>(rt: &impl Abort, found: T, want: T, what: &str) {
    assert_eq!(rt; found, want, "{what}");
}

/// As `expect`, of the case of this number.
pub fn expect_at<T: PartialEq + Debug + Copy>(rt: &impl Abort, found: T, want: T, number: u64) {
    assert_eq!(rt; found, want, "at {number}, in hexadecimal {number:X}");
}

/// As `expect`, of a text.
pub fn expect_text(rt: &impl Abort, found: &str, want: &str, what: &str) {
    assert_eq!(rt; found, want, "{what}");
}

/// Stops the test unless the fact holds.
pub fn expect_true(rt: &impl Abort, holds: bool, what: &str)
    ensures { holds ≡ true }
{
    assert!(rt; holds, "{what}");
}
