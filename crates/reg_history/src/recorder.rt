//! What takes facts, one after the other, and a history that goes on by them.
ghost use Rattle.std.specs.Prelude.{◌≡◌, ◌++◌, ◌∷◌, [], List, IfOk, IfErr, OnOk, option_to_list};
ghost use Rattle.reg_history.specs.Chain.{at, says};
ghost use Rattle.reg_history.specs.Recording.{Aim, Awaits, IsRecorded, Ends, ListsFacts, Took};
ghost use Rattle.reg_changes.specs.Said.{TellsLoss};
ghost use Rattle.reg_changes.specs.declared.said.Unrecorded.TheVariants.{Lost};

use crate::overview::Overview;
use reg_changes::change::{Fact, HistoryRecord, PublishedChange, Subject};
use reg_changes::field::Field;
use reg_changes::said::{Said, Unrecorded, change_to};
use std::alloc::{AllocError, Global};

/// What takes facts, one after the other.
pub trait Takes {
    ghost use Rattle.reg_changes.specs.declared.change.Fact.{Fact};

    /// It is on its way to an aim, and these facts are still to come.
    ghost Awaits: { Aim → Self → List Fact → Type 0 };

    /// Takes the fact that comes next. Only want of memory is an error.
    fn take(&mut self, alloc: Global, fact: Fact) -> Result<(), AllocError>
        ensures { OnOk result (Took Awaits self.old self.new (fact ∷ [])) };
}

impl Takes for Vec<Fact> {
    ghost Awaits = { λ aim facts rest. ListsFacts aim facts.items rest };

    fn take(&mut self, _alloc: Global, fact: Fact) -> Result<(), AllocError> {
        self.push(fact)?;
        Ok(())
    }
}

/// A history as it is published: its bytes, and what is shown of it.
#[derive(Drop)]
pub struct Recorded {
    pub text: Vec<u8>,
    pub overview: Overview,
}

impl Recorded {
    // Adds the record by which a change is published at a moment, if there is one.
    fn add(
        &mut self,
        alloc: Global,
        moment: &Field,
        change: &Option<PublishedChange>,
    ) -> Result<(), AllocError>
        ensures { OnOk result ((records : List HistoryRecord) → IsRecorded self.old records
            → IsRecorded self.new (records ++ at moment.now (option_to_list change.now))) }
    {
        let Some(change) = change else {
            return Ok(());
        };
        let line = self.overview.add(alloc, moment, change)?;
        self.text.extend_from_slice(line.bytes.as_slice())?;
        Ok(())
    }
}

/// A history that goes on at a moment by facts that it takes. What was said of a subject goes when its fact
/// comes. Where something is lost, it says what, and nothing more is recorded.
#[derive(Drop)]
pub struct Recorder {
    pub whole: Recorded,
    pub said: Said,
    pub moment: Field,
    pub lost: Option<Subject>,
}

impl Takes for Recorder {
    ghost Awaits = { Awaits };

    fn take(&mut self, alloc: Global, fact: Fact) -> Result<(), AllocError> {
        if self.lost.is_some() {
            return Ok(());
        }
        let before = self.said.remove(&fact.subject);
        match change_to(before, &fact) {
            Ok(change) => {
                self.whole.add(alloc, &self.moment, &change)?;
                Ok(())
            }
            Err(why) => {
                self.lost = Some(lost_in(why)?);
                Ok(())
            }
        }
    }
}

impl Recorder {
    /// The history after all facts, or what was lost: nothing that was said may be left.
    pub fn end(self) -> Result<Recorded, Unrecorded>
        ensures goes_on { IfOk result (λ whole. (aim : Aim) → Awaits aim self [] → Ends aim whole) }
        ensures lost { IfErr result (λ why. (aim : Aim) → Awaits aim self []
            → TellsLoss (says aim.records) aim.facts why) }
    {
        let Recorder {
            whole,
            mut said,
            moment: _,
            lost,
        } = self;
        if let Some(subject) = lost {
            return Err(Unrecorded::Lost(subject));
        }
        match said.pop_first() {
            None => Ok(whole),
            Some((subject, _)) => Err(Unrecorded::Lost(subject)),
        }
    }
}

// What was lost, where memory was not wanting.
fn lost_in(why: Unrecorded) -> Result<Subject, AllocError>
    ensures { IfOk result (λ subject. why ≡ Lost subject) }
{
    match why {
        Unrecorded::Memory => Err(AllocError),
        Unrecorded::Lost(subject) => Ok(subject),
    }
}
