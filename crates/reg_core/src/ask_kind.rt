//! The kinds of asks, and their words.
ghost use Rattle.std.specs.Prelude.{◌≡◌};
ghost use Rattle.reg_core.specs.AskKind.{ask_kind_word, ask_kind_of, read_ask_kind};

use crate::ask::Ask;

/// What kind of ask a request is.
#[derive(Clone, Copy, Debug, PartialEq, Eq)]
pub enum AskKind {
    Code,
    Early,
    Renew,
    Permanent,
    Block,
}

impl AskKind {
    /// All five.
    pub const ALL: [AskKind; 5] = [
        AskKind::Code,
        AskKind::Early,
        AskKind::Renew,
        AskKind::Permanent,
        AskKind::Block,
    ];

    /// The kind of an ask.
    pub fn of(ask: &Ask) -> AskKind
        ensures { result ≡ ask_kind_of ask.now }
    {
        match ask {
            Ask::Code(_) => AskKind::Code,
            Ask::Early(_) => AskKind::Early,
            Ask::Renew(_) => AskKind::Renew,
            Ask::Permanent(_) => AskKind::Permanent,
            Ask::Block(_) => AskKind::Block,
        }
    }

    /// The word by which messages and tables name the kind.
    pub fn word(&self) -> &'static str
        ensures { result.now ≡ ask_kind_word self.now }
    {
        match self {
            AskKind::Code => "code",
            AskKind::Early => "early",
            AskKind::Renew => "renew",
            AskKind::Permanent => "permanent",
            AskKind::Block => "block",
        }
    }

    /// The kind of this word, compared exactly.
    pub fn read(word: &[u8]) -> Option<AskKind>
        ensures { result ≡ read_ask_kind word.now }
    {
        Self::ALL
            .iter()
            .copied()
            .find(|kind| kind.word().as_bytes() == word)
    }
}
