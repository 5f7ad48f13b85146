//! What an applicant shows for an assignment.
ghost use Rattle.std.specs.Prelude.{◌≡◌, IfOk};
ghost use Rattle.reg_ranges.specs.Words.{item_word, stream_word, read_stream, track_word, read_track};

use crate::formed::Formed;
use crate::text::Text;
use std::alloc::AllocError;
use std::marker::Model;

/// What an assignment or an early allocation asks for, one thing each.
#[derive(Clone, Copy, Debug, PartialEq, Eq)]
pub enum Item {
    /// A policy under which this is done at all.
    Policy,
    /// A contact.
    Contact,
    /// A permanent and readily available public specification.
    Specification,
    /// An RFC.
    Rfc,
    /// An RFC of the right stream.
    Stream,
    /// An RFC of the right track.
    Track,
    /// The minute of the IESG's approval.
    Minute,
    /// A description in an Internet-Draft.
    Draft,
    /// A specification that is stable.
    Stable,
    /// Sufficient interest, or danger of contention.
    Interest,
    /// Approval by the working group's chairs.
    Chair,
    /// Approval by an area director.
    Director,
}

impl Item {
    /// The word by which messages name the item.
    pub fn word(&self) -> &'static str
        ensures { result.now ≡ item_word self.now }
    {
        match self {
            Item::Policy => "policy",
            Item::Contact => "contact",
            Item::Specification => "specification",
            Item::Rfc => "rfc",
            Item::Stream => "stream",
            Item::Track => "track",
            Item::Minute => "minute",
            Item::Draft => "draft",
            Item::Stable => "stable",
            Item::Interest => "interest",
            Item::Chair => "chair",
            Item::Director => "director",
        }
    }
}

/// The stream in which an RFC was published.
#[derive(Clone, Copy, Debug, PartialEq, Eq)]
pub enum Stream {
    Ietf,
    Irtf,
    Iab,
    Independent,
    Editorial,
}

impl Stream {
    /// All five.
    pub const ALL: [Stream; 5] = [
        Stream::Ietf,
        Stream::Irtf,
        Stream::Iab,
        Stream::Independent,
        Stream::Editorial,
    ];

    /// The word by which messages name the stream.
    pub fn word(&self) -> &'static str
        ensures { result.now ≡ stream_word self.now }
    {
        match self {
            Stream::Ietf => "ietf",
            Stream::Irtf => "irtf",
            Stream::Iab => "iab",
            Stream::Independent => "independent",
            Stream::Editorial => "editorial",
        }
    }

    /// The stream of this word, compared exactly.
    pub fn read(word: &[u8]) -> Option<Stream>
        ensures { result ≡ read_stream word.now }
    {
        Self::ALL
            .iter()
            .copied()
            .find(|stream| stream.word().as_bytes() == word)
    }
}

/// The track, or the category, of an RFC.
#[derive(Clone, Copy, Debug, PartialEq, Eq)]
pub enum Track {
    Standards,
    Bcp,
    Informational,
    Experimental,
    Historic,
}

impl Track {
    /// All five.
    pub const ALL: [Track; 5] = [
        Track::Standards,
        Track::Bcp,
        Track::Informational,
        Track::Experimental,
        Track::Historic,
    ];

    /// The word by which messages name the track.
    pub fn word(&self) -> &'static str
        ensures { result.now ≡ track_word self.now }
    {
        match self {
            Track::Standards => "standards",
            Track::Bcp => "bcp",
            Track::Informational => "informational",
            Track::Experimental => "experimental",
            Track::Historic => "historic",
        }
    }

    /// The track of this word, compared exactly.
    pub fn read(word: &[u8]) -> Option<Track>
        ensures { result ≡ read_track word.now }
    {
        Self::ALL
            .iter()
            .copied()
            .find(|track| track.word().as_bytes() == word)
    }
}

/// A published RFC. Its number is 1 to 99999.
#[derive(Clone, Copy, Debug, PartialEq, Eq)]
pub struct Rfc {
    number: u32,
    stream: Stream,
    track: Track,
}

impl Model for Rfc {
    ghost use Rattle.reg_ranges.specs.Rfcs.{PublishedRfc, IsRfcNumber};

    ghost Value = { PublishedRfc };

    ghost view = { λ r. record { number = r.number; stream = r.stream; track = r.track } };

    ghost invariant = { λ r. IsRfcNumber r.number };

    ghost inverse = { λ r. record { number = r.number; stream = r.stream; track = r.track } };
}

impl Rfc {
    ghost use Rattle.std.specs.Prelude.{◌≡◌, IfSome, IsSome, ◌↔◌};
    ghost use Rattle.reg_ranges.specs.Rfcs.{IsRfcNumber};

    /// The largest number.
    pub const LAST: u32 = 99_999;

    /// The RFC of this number, stream and track, or none where the number is not 1 to 99999.
    pub fn make(number: u32, stream: Stream, track: Track) -> Option<Rfc>
        ensures numbered { IsSome result ↔ IsRfcNumber number }
        ensures value { IfSome result (λ r. r ≡ record { number = number; stream = stream; track = track }) }
    {
        if !(1..=Self::LAST).contains(&number) {
            return None;
        }
        Some(Rfc {
            number,
            stream,
            track,
        })
    }

    /// Its number, 1 to 99999.
    pub fn number(&self) -> u32
        ensures number { result ≡ self.now.number }
        ensures numbered { IsRfcNumber result }
    {
        self.number
    }

    pub fn stream(&self) -> Stream
        ensures { result ≡ self.now.stream }
    {
        self.stream
    }

    pub fn track(&self) -> Track
        ensures { result ≡ self.now.track }
    {
        self.track
    }
}

impl Formed for Rfc {
    ghost use Rattle.reg_ranges.specs.Forms.{is_rfc};

    ghost has_form = { is_rfc };

    fn formed(&self) {
        let _ = &self.number;
    }
}

/// What an applicant shows for an assignment; each part may be missing.
#[derive(Clone, Debug, Drop, PartialEq, Eq)]
pub struct Evidence {
    /// Who can be asked about the value.
    pub contact: Option<Text>,
    /// Where the specification is found.
    pub spec: Option<Text>,
    /// The RFC that describes the value.
    pub rfc: Option<Rfc>,
    /// The minute of the IESG's approval.
    pub minute: Option<Text>,
}

impl Evidence {
    /// Equal evidence. Only want of memory is an error.
    pub fn copy(&self) -> Result<Evidence, AllocError>
        ensures { IfOk result (λ c. c ≡ self.now) }
    {
        self.clone()
    }
}

impl Formed for Evidence {
    ghost use Rattle.reg_ranges.specs.Forms.{has_evidence_form};

    ghost has_form = { has_evidence_form };

    fn formed(&self) {
        self.contact.formed();
        self.spec.formed();
        self.rfc.formed();
        self.minute.formed();
    }
}
