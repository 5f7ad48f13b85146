//! The words in the table of requests.
ghost use Rattle.reg_ranges.specs.Words.{policy_word, read_policy, stream_word, read_stream, track_word, read_track};
ghost use Rattle.reg_core.specs.AskKind.{ask_kind_word, read_ask_kind};
ghost use Rattle.reg_core.specs.Request.{read_state, state_word};

use crate::word::Worded;
use reg_core::ask_kind::AskKind;
use reg_core::request::StateWord;
use reg_ranges::evidence::{Stream, Track};
use reg_ranges::policy::Policy;

impl Worded for AskKind {
    ghost word_of = { ask_kind_word };

    ghost read_word = { read_ask_kind };

    fn written(&self) -> &'static str {
        self.word()
    }

    fn read_word(word: &[u8]) -> Option<Self> {
        AskKind::read(word)
    }
}

impl Worded for StateWord {
    ghost word_of = { state_word };

    ghost read_word = { read_state };

    fn written(&self) -> &'static str {
        self.word()
    }

    fn read_word(word: &[u8]) -> Option<Self> {
        StateWord::read(word)
    }
}

impl Worded for Policy {
    ghost word_of = { policy_word };

    ghost read_word = { read_policy };

    fn written(&self) -> &'static str {
        self.word()
    }

    fn read_word(word: &[u8]) -> Option<Self> {
        Policy::read(word)
    }
}

impl Worded for Stream {
    ghost word_of = { stream_word };

    ghost read_word = { read_stream };

    fn written(&self) -> &'static str {
        self.word()
    }

    fn read_word(word: &[u8]) -> Option<Self> {
        Stream::read(word)
    }
}

impl Worded for Track {
    ghost word_of = { track_word };

    ghost read_word = { read_track };

    fn written(&self) -> &'static str {
        self.word()
    }

    fn read_word(word: &[u8]) -> Option<Self> {
        Track::read(word)
    }
}
