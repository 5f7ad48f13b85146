//! The sizes of blocks.
ghost use Rattle.std.specs.Prelude.{◌≡◌, ◌≤◌, ◌↔◌, Some};
ghost use Rattle.reg_blocks.specs.declared.size.Size.{Size as BlockSize};
ghost use Rattle.reg_blocks.specs.Size.{prefix_bits, address_count, blocks_in_prefix, digit_count, size_of_digits, word_of};

/// The size of a block, by the length of the prefix that its addresses share (IEEE Registration
/// Authority).
#[derive(Clone, Copy, Debug, PartialEq, Eq, PartialOrd, Ord, Hash)]
pub enum Size {
    /// MAC Addresses - Large: a prefix of 24 bits, 2^24 addresses.
    MaL,
    /// MAC Addresses - Medium: a prefix of 28 bits, 2^20 addresses.
    MaM,
    /// MAC Addresses - Small: a prefix of 36 bits, 2^12 addresses.
    MaS,
}

impl Size {
    /// The registry's word: `MA-L`, `MA-M` or `MA-S`.
    pub fn word(self) -> &'static str
        ensures { result.now ≡ word_of self }
    {
        match self {
            Size::MaL => "MA-L",
            Size::MaM => "MA-M",
            Size::MaS => "MA-S",
        }
    }

    /// The size of this word, compared exactly, or none.
    pub fn read(word: &[u8]) -> Option<Size>
        ensures { (size : BlockSize) → (result ≡ Some size) ↔ (word.now ≡ word_of size) }
    {
        [Size::MaL, Size::MaM, Size::MaS]
            .into_iter()
            .find(|size| size.word().as_bytes() == word)
    }

    /// How many leading bits the addresses of a block share: 24, 28 or 36.
    pub(crate) fn prefix_bits(self) -> u32
        ensures { result ≡ prefix_bits self }
    {
        match self {
            Size::MaL => 24,
            Size::MaM => 28,
            Size::MaS => 36,
        }
    }

    /// How many addresses a block has: 2^24, 2^20 or 2^12.
    pub(crate) fn address_count(self) -> u64
        ensures { result ≡ address_count self }
    {
        1 << (48 - self.prefix_bits())
    }

    /// How many blocks of this size a 24-bit prefix has: 1, 2^4 or 2^12.
    pub(crate) fn blocks_in_prefix(self) -> u64
        ensures { result ≡ blocks_in_prefix self }
    {
        1 << (self.prefix_bits() - 24)
    }

    /// How many hexadecimal digits write the prefix of a block: 6, 7 or 9.
    pub(crate) fn digit_count(self) -> usize
        ensures value { result ≡ digit_count self }
        ensures most { result ≤ 9 }
    {
        match self {
            Size::MaL => 6,
            Size::MaM => 7,
            Size::MaS => 9,
        }
    }

    /// The size whose prefixes are written by so many digits, or none.
    pub(crate) fn of_digits(count: usize) -> Option<Size>
        ensures { result ≡ size_of_digits count }
    {
        match count {
            6 => Some(Size::MaL),
            7 => Some(Size::MaM),
            9 => Some(Size::MaS),
            _ => None,
        }
    }
}
