//! Histories, as they are read and go on.
ghost use Rattle.std.specs.Prelude.{◌≡◌, ◌<◌, ◌++◌, ◌+◌, ◌^◌, [], length, true, List, IfOk, IfErr, OnOk};
ghost use Rattle.std.specs.Ordering.{is_le};
ghost use Rattle.reg_maps.specs.Maps.{text_cmp};
ghost use Rattle.reg_history.specs.Chain.{chained, record_of, says};
ghost use Rattle.reg_history.specs.History.{AddsRecord, IsHistory, IsHistoryOf, IsWrongAfter, SaysJust, TakesRecord, TellsWrong, later};
ghost use Rattle.reg_history.specs.Reading.{IsAt};
ghost use Rattle.reg_history.specs.Recording.{Aim, Awaits, IsBegunOn};
ghost use Rattle.reg_history.specs.Unlike.{TellsUnlike, unlike_of};
ghost use Rattle.reg_history.specs.declared.history.Unlike.TheVariants as unlike;
ghost use Rattle.reg_history.specs.declared.history.Unreadable.TheVariants as un;

use crate::chain::Chain;
use crate::moment::moment_text;
use crate::overview::Overview;
use crate::reading::Records;
use crate::recorder::{Recorded, Recorder};
use reg_changes::change::{Fact, HistoryRecord, PublishedChange, Subject};
use reg_changes::field::Field;
use reg_changes::said::{Said, Unrecorded, apply, changes_to};
use reg_print::comparing::behind;
use std::alloc::{AllocError, Global};
use std::collections::BTreeMap;

/// The record of the columns.
pub const HEADER: &[u8] =
    b"Number,Moment,Register,Change,Value,Description,Policy,First,Expires,Held,Assignee,Digest\n";

/// A history: what its records say, the digest of each, what is shown of them, and the moment of the last.
/// It does not keep the records themselves.
#[derive(Drop)]
pub struct History {
    pub said: Said,
    pub chain: Chain,
    pub overview: Overview,
    pub moment: Field,
}

/// Why a history does not say just what is published.
#[derive(Debug, Drop)]
pub enum Unlike {
    /// There was no memory.
    Memory,
    /// This subject is published otherwise, or is in one of the two alone.
    Subject(Subject),
}

impl From<AllocError> for Unlike {
    ghost from_gives = { λ _ e. e ≡ unlike.Memory };

    fn from(_error: AllocError) -> Unlike {
        Unlike::Memory
    }
}

impl From<Unrecorded> for Unlike {
    ghost from_gives = { λ why e. e ≡ unlike_of why };

    fn from(why: Unrecorded) -> Unlike {
        match why {
            Unrecorded::Memory => Unlike::Memory,
            Unrecorded::Lost(subject) => Unlike::Subject(subject),
        }
    }
}

/// Why bytes are no history.
#[derive(Clone, Copy, Debug, PartialEq, Eq)]
pub enum Unreadable {
    /// There was no memory.
    Memory,
    /// They do not begin with the record of the columns.
    Header,
    /// The record of this number is not as it has to be after those before it.
    Wrong(u64),
}

impl From<AllocError> for Unreadable {
    ghost from_gives = { λ _ e. e ≡ un.Memory };

    fn from(_error: AllocError) -> Unreadable {
        Unreadable::Memory
    }
}

/// The history with these bytes. Each record has the number and the digest that follow from those before
/// it, and is no earlier than the last of them.
pub fn read(alloc: Global, text: &[u8]) -> Result<History, Unreadable>
    ensures history { IfOk result (λ history. IsHistoryOf history text.now) }
    ensures wrong { IfErr result (TellsWrong text.now) }
{
    let mut history = History::new(alloc)?;
    let Some(rest) = behind(HEADER, text) else {
        return Err(Unreadable::Header);
    };
    history.take(alloc, rest)?;
    Ok(history)
}

impl History {
    /// A history without a record. Only want of memory is an error.
    pub fn new(alloc: Global) -> Result<Self, AllocError>
        ensures { IfOk result (λ history. IsHistory history []) }
    {
        Ok(History {
            said: BTreeMap::new(alloc),
            chain: Chain::new(alloc),
            overview: Overview::new(alloc),
            moment: Field::new(alloc, "")?,
        })
    }

    // Takes all records of a text, which come next.
    fn take(&mut self, alloc: Global, text: &[u8]) -> Result<(), Unreadable>
        ensures history { IfOk result (λ _. (records : List HistoryRecord)
            → IsHistory self.old records
            → IsHistoryOf self.new ((chained records).text ++ text.now)) }
        ensures wrong { IfErr result (λ why. (records : List HistoryRecord)
            → IsHistory self.old records
            → TellsWrong ((chained records).text ++ text.now) why) }
    {
        let mut records = Records::of(alloc, text)?;
        let mut rest = text;
        while !rest.is_empty() {
            rest = self.take_next(alloc, &mut records, rest)?;
        }
        Ok(())
    }

    // Takes the record that comes next in a text, and gives what is left of the text.
    fn take_next<'a>(
        &mut self,
        alloc: Global,
        records: &mut Records<'_>,
        text: &'a [u8],
    ) -> Result<&'a [u8], Unreadable>
        ensures counted { OnOk result (length self.new.chain.digests.items
            ≡ length self.old.chain.digests.items + 1) }
        ensures takes { IfOk result (λ rest. (before : List HistoryRecord)
            → IsHistory self.old before → TakesRecord self.new before text.now rest.now) }
        ensures goes_on { IfOk result (λ rest. (before : List HistoryRecord)
            → IsHistory self.old before → IsAt records.old text.now → IsAt records.new rest.now) }
        ensures wrong { IfErr result (λ why. (before : List HistoryRecord)
            → IsHistory self.old before → IsAt records.old text.now → IsWrongAfter before text.now why) }
    {
        let wrong = self.wrong();
        let Some(next) = records.next()? else {
            return Err(wrong);
        };
        if !is_in_order(&self.moment, &next.moment) {
            return Err(wrong);
        }
        let line = self.add(alloc, next.moment, next.change)?;
        match behind(line.as_slice(), text) {
            Some(rest) => Ok(rest),
            None => Err(wrong),
        }
    }

    // That the record that comes next is wrong.
    fn wrong(&self) -> Unreadable
        ensures number { result ≡ un.Wrong (length self.now.chain.digests.items + 1) }
        ensures counts { length self.now.chain.digests.items + 1 < 2 ^ 64 }
    {
        Unreadable::Wrong(self.chain.digests.len() as u64 + 1)
    }

    // Adds a record, and gives its bytes.
    fn add(
        &mut self,
        alloc: Global,
        moment: Field,
        change: PublishedChange,
    ) -> Result<Vec<u8>, AllocError>
        ensures counted { OnOk result (length self.new.chain.digests.items
            ≡ length self.old.chain.digests.items + 1) }
        ensures adds { IfOk result (λ v. (records : List HistoryRecord) → IsHistory self.old records
            → is_le (text_cmp self.old.moment moment) ≡ true
            → AddsRecord self.new records (record_of moment change) v.items) }
    {
        let line = self.overview.add(alloc, &moment, &change)?;
        self.chain.push(line.digest)?;
        apply(&mut self.said, change)?;
        self.moment = moment;
        Ok(line.bytes)
    }

    /// The history goes on at a moment, in seconds since 1970-01-01T00:00:00Z, behind these bytes, which are
    /// its own. Its records are in the recorder, their digests no more. Only want of memory is an error.
    pub fn go_on(self, alloc: Global, text: Vec<u8>, moment: u64) -> Result<Recorder, AllocError>
        ensures { IfOk result (λ recorder. (aim : Aim) → IsBegunOn aim self text.items moment
            → Awaits aim recorder aim.facts) }
    {
        let History {
            said,
            chain,
            overview,
            moment: last,
        } = self;
        drop(chain);
        let now = moment_text(alloc, moment)?;
        Ok(Recorder {
            whole: Recorded { text, overview },
            said,
            moment: later(last, Field::new(alloc, now.as_str())?),
            lost: None,
        })
    }

    /// That it says just these facts, and no others.
    pub fn says_just(self, alloc: Global, facts: &[Fact]) -> Result<Chain, Unlike>
        ensures says { OnOk result ((records : List HistoryRecord) → IsHistory self records
            → SaysJust records facts.now) }
        ensures chain { IfOk result (λ chain. chain ≡ self.chain) }
        ensures unlike { IfErr result (λ why. (records : List HistoryRecord)
            → IsHistory self records → TellsUnlike (says records) facts.now why) }
    {
        let History {
            said,
            chain,
            overview: _,
            moment: _,
        } = self;
        let changes = changes_to(alloc, said, facts)?;
        match changes.first() {
            None => Ok(chain),
            Some(change) => Err(Unlike::Subject(change.subject()?)),
        }
    }
}

// Whether a moment is not earlier than the last.
fn is_in_order(last: &Field, next: &Field) -> bool
    ensures { result ≡ is_le (text_cmp last.now next.now) }
{
    last <= next
}

// The later of two moments.
fn later(last: Field, now: Field) -> Field
    ensures { result ≡ later last now }
{
    if last <= now { now } else { last }
}
