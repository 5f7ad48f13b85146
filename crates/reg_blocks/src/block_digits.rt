//! The digits of blocks, written in place.
ghost use Rattle.std.specs.Prelude.{◌≡◌};
ghost use Rattle.reg_blocks.specs.Digits.{block_text};

use crate::block::Block;
use crate::digits::upper_digit;
use std::marker::Model;

/// The digits of an MA-S, whose prefix is longest.
const MOST_DIGITS: usize = 9;

/// The hexadecimal digits of a block's prefix, in upper case.
#[derive(Drop)]
pub struct BlockDigits {
    digits: [u8; MOST_DIGITS],
    count: usize,
}

impl Model for BlockDigits {
    ghost use Rattle.std.specs.Prelude.{ℕ, ◌≤◌, List, take};

    ghost Value = { List ℕ };

    ghost view = { λ d. take d.count d.digits };

    ghost invariant = { λ d. d.count ≤ 9 };
}

impl BlockDigits {
    /// The digits of this block, leading zeros included.
    pub fn of(block: &Block) -> BlockDigits
        ensures { result ≡ block_text block.now }
    {
        let count = block.size().digit_count();
        let prefix = block.prefix();
        let mut digits = [b'0'; MOST_DIGITS];
        for place in 0..count {
            let left = count - 1 - place;
            digits[place] = upper_digit((prefix >> (4 * left)) % 16);
        }
        BlockDigits { digits, count }
    }

    /// The digits.
    pub fn as_slice(&self) -> &[u8]
        ensures { result.now ≡ self.now }
    {
        &self.digits[..self.count]
    }
}
