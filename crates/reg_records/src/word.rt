//! The values that tables write as words.
ghost use Rattle.std.specs.Prelude.{◌≡◌, ℕ, List, Option};
ghost use Rattle.reg_blocks.specs.Size.{word_of};
ghost use Rattle.reg_core.specs.Advice.{read_verdict, verdict_word};
ghost use Rattle.reg_core.specs.Capability.{kind_word, read_kind};
ghost use Rattle.reg_ranges.specs.Words.{read_treatment, treatment_word};
ghost use Rattle.reg_records.specs.Words.{read_size};

use reg_blocks::size::Size;
use reg_core::advice::Verdict;
use reg_core::capability::Kind;
use reg_ranges::policy::Treatment;

/// A value that a table writes as a word.
pub trait Worded: Copy {
    /// The word of a value.
    ghost word_of: { Self → List ℕ };

    /// The value of a word, compared exactly.
    ghost read_word: { List ℕ → Option Self };

    /// The word that is written.
    fn written(&self) -> &'static str
        ensures { result.now ≡ word_of self.now };

    /// The value of this word.
    fn read_word(word: &[u8]) -> Option<Self>
        ensures { result ≡ read_word word.now };
}

impl Worded for Kind {
    ghost word_of = { kind_word };

    ghost read_word = { read_kind };

    fn written(&self) -> &'static str {
        self.word()
    }

    fn read_word(word: &[u8]) -> Option<Self> {
        Kind::read(word)
    }
}

impl Worded for Treatment {
    ghost word_of = { treatment_word };

    ghost read_word = { read_treatment };

    fn written(&self) -> &'static str {
        self.word()
    }

    fn read_word(word: &[u8]) -> Option<Self> {
        Treatment::read(word)
    }
}

impl Worded for Verdict {
    ghost word_of = { verdict_word };

    ghost read_word = { read_verdict };

    fn written(&self) -> &'static str {
        self.word()
    }

    fn read_word(word: &[u8]) -> Option<Self> {
        Verdict::read(word)
    }
}

impl Worded for Size {
    ghost word_of = { word_of };

    ghost read_word = { read_size };

    fn written(&self) -> &'static str {
        self.word()
    }

    fn read_word(word: &[u8]) -> Option<Self> {
        Size::read(word)
    }
}
