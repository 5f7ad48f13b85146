//! What is shown of a history.
ghost use Rattle.std.specs.Prelude.{◌≡◌, ◌≤◌, ◌+◌, ◌-◌, ◌++◌, ◌∷◌, [], List, IfOk, OnOk, drop, length, unwrap_or};
ghost use Rattle.reg_history.specs.Chain.{record_of};
ghost use Rattle.reg_history.specs.Overview.{AddsToOverview, IsOverview, Notes, last_of, moment_by, tied};

use crate::chain::{DIGITS, RecordLine};
use reg_changes::change::{HistoryRecord, PublishedChange};
use reg_changes::field::Field;
use std::alloc::{AllocError, Global};
use std::collections::{BTreeMap, VecDeque};

/// How many records are recent.
pub const RECENT: usize = 200;

/// A record, and the digest by which it is tied to all before it.
#[derive(Drop)]
pub struct Tied {
    pub row: HistoryRecord,
    pub digest: [u8; DIGITS],
}

/// What is shown of a history: how many records it has, the first digest and the last, the last 200
/// records with theirs, and when each registry was last changed.
#[derive(Drop)]
pub struct Overview {
    pub count: u64,
    pub first: Option<[u8; DIGITS]>,
    pub last: Option<[u8; DIGITS]>,
    pub recent: VecDeque<Tied>,
    /// The moment of the last record about each registry, by its name, which is empty for those about
    /// none.
    pub changed: BTreeMap<Field, Field>,
}

impl Overview {
    /// What is shown of a history without a record. It takes no memory.
    pub fn new(alloc: Global) -> Self
        ensures { IsOverview result [] }
    {
        Overview {
            count: 0,
            first: None,
            last: None,
            recent: VecDeque::new(alloc),
            changed: BTreeMap::new(alloc),
        }
    }

    /// Adds the record that comes next, by which a change was published at a moment, and gives its line.
    /// An error comes only where there is no memory, or more records than can be counted.
    pub fn add(
        &mut self,
        alloc: Global,
        moment: &Field,
        change: &PublishedChange,
    ) -> Result<RecordLine, AllocError>
        ensures { IfOk result (λ line. (records : List HistoryRecord) → IsOverview self.old records
            → AddsToOverview self.new records (record_of moment.now change.now) line) }
    {
        let Some(number) = self.count.checked_add(1) else {
            return Err(AllocError);
        };
        let line = RecordLine::of(alloc, number, self.last_digest(), moment, change)?;
        note_recent(&mut self.recent, moment, change, line.digest)?;
        note_moment(&mut self.changed, moment, change)?;
        self.count = number;
        self.first = Some(self.first.unwrap_or(line.digest));
        self.last = Some(line.digest);
        Ok(line)
    }

    /// The digits of the first digest; none where there is no record.
    pub fn first_digest(&self) -> &[u8]
        ensures { result.now ≡ unwrap_or self.now.first [] }
    {
        digits_of(&self.first)
    }

    /// The digits of the last digest; none where there is no record.
    pub fn last_digest(&self) -> &[u8]
        ensures { result.now ≡ unwrap_or self.now.last [] }
    {
        digits_of(&self.last)
    }

    /// When the registry of this name was last changed; empty where no record is about it. Only want of
    /// memory is an error.
    pub fn last_changed(&self, alloc: Global, name: &str) -> Result<&str, AllocError>
        ensures { IfOk result (λ changed. changed.now ≡ moment_by self.now.changed name.now) }
    {
        let name = Field::new(alloc, name)?;
        match self.changed.get(&name) {
            Some(moment) => Ok(moment.as_str()),
            None => Ok(""),
        }
    }
}

// Notes a record among the recent ones.
fn note_recent(
    recent: &mut VecDeque<Tied>,
    moment: &Field,
    change: &PublishedChange,
    digest: [u8; DIGITS],
) -> Result<(), AllocError>
    ensures { OnOk result (length recent.old.items ≤ 200
        → recent.new.items ≡ last_of (recent.old.items ++ tied moment.now change.now digest ∷ [])) }
{
    let row = HistoryRecord {
        moment: moment.copy()?,
        change: change.copy()?,
    };
    make_room(recent);
    recent.push_back(Tied { row, digest })?;
    Ok(())
}

// Lets the first of the recent records go where there are as many as can be.
fn make_room(recent: &mut VecDeque<Tied>)
    ensures { length recent.old.items ≤ 200
        → recent.new.items ≡ drop (length recent.old.items + 1 - 200) recent.old.items }
{
    if recent.len() >= RECENT {
        recent.pop_front();
    }
}

// Notes when a registry was changed.
fn note_moment(
    changed: &mut BTreeMap<Field, Field>,
    moment: &Field,
    change: &PublishedChange,
) -> Result<(), AllocError>
    ensures { OnOk result (Notes changed.old changed.new moment.now change.now) }
{
    changed.insert(change.registry().copy()?, moment.copy()?)?;
    Ok(())
}

// The digits of a digest, if there is one.
fn digits_of(digest: &Option<[u8; DIGITS]>) -> &[u8]
    ensures { result.now ≡ unwrap_or digest.now [] }
{
    match digest {
        Some(digits) => digits.as_slice(),
        None => &[],
    }
}
