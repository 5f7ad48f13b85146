//! 24-bit prefixes as text.
ghost use Rattle.std.specs.Prelude.{◌≡◌, ◌<◌, ◌^◌, string_bytes, Some, IfSome, IfOk};
ghost use Rattle.reg_blocks.specs.Digits.{read_prefix, prefix_text};

use crate::digits::{hex_text, hex_value};
use std::alloc::{AllocError, Global};

/// How many hexadecimal digits write 24 bits.
const DIGIT_COUNT: usize = 6;

/// The prefix that six hexadecimal digits of either case write, or none where the text is anything
/// else. Its I/G and U/L bits may be set.
pub fn read(digits: &[u8]) -> Option<u32>
    ensures value { result ≡ read_prefix digits.now }
    ensures bits { IfSome result (λ prefix. prefix < 2 ^ 24) }
{
    if digits.len() != DIGIT_COUNT {
        return None;
    }
    Some(hex_value(digits)? as u32)
}

/// The prefix in six hexadecimal digits, in upper case. Of a number of more than 24 bits they are
/// the last six. Only want of memory is an error.
pub fn text(alloc: Global, prefix: u32) -> Result<String, AllocError>
    ensures digits { IfOk result (λ text. string_bytes text ≡ prefix_text prefix) }
    ensures back { IfOk result (λ text. prefix < 2 ^ 24 → read_prefix (string_bytes text) ≡ Some prefix) }
{
    hex_text(alloc, DIGIT_COUNT, u64::from(prefix))
}
