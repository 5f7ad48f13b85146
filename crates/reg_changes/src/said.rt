//! What a history says of each subject, and what has to be recorded of facts.
ghost use Rattle.std.specs.Prelude.{◌≡◌, ◌++◌, true, IfOk, IfErr, OnOk, option_to_list};
ghost use Rattle.reg_changes.specs.Replay.{NothingIsLost, StandsIf, after, changes_to, is_no_earlier, recorded, same_given, same_standing, stands, with_standing_at, SaysAfter};
ghost use Rattle.reg_changes.specs.Subjects.{is_entry};
ghost use Rattle.reg_changes.specs.Said.{Says, said_by, DoesNotStand, TellsLoss};
ghost use Rattle.reg_changes.specs.declared.change.PublishedChange.TheVariants.{Term};
ghost use Rattle.reg_changes.specs.declared.said.Unrecorded.TheVariants as un;

use crate::change::{Class, Details, Fact, PublishedChange, PublishedStanding, Subject};
use crate::field::Field;
use std::alloc::{AllocError, AllocFailed, Global};
use std::collections::BTreeMap;

/// What was said last of each subject.
pub type Said = BTreeMap<Subject, Details>;

/// Why nothing is recorded.
#[derive(Debug, Drop)]
pub enum Unrecorded {
    /// There was no memory.
    Memory,
    /// What was said of this subject is published no more, or otherwise.
    Lost(Subject),
}

impl From<AllocError> for Unrecorded {
    ghost from_gives = { λ _ e. e ≡ un.Memory };

    fn from(_error: AllocError) -> Unrecorded {
        Unrecorded::Memory
    }
}

impl<T: Drop> From<AllocFailed<T>> for Unrecorded {
    ghost from_gives = { λ _ e. e ≡ un.Memory };

    fn from(_error: AllocFailed<T>) -> Unrecorded {
        Unrecorded::Memory
    }
}

/// What has to be recorded of these facts, where this was said; or what was lost. Each fact is compared
/// with what was said of its subject, and at the end nothing that was said may be left.
pub fn changes_to(
    alloc: Global,
    mut said: Said,
    facts: &[Fact],
) -> Result<Vec<PublishedChange>, Unrecorded>
    ensures changes { IfOk result (λ v. v.items ≡ changes_to (said_by said) facts.now) }
    ensures kept { OnOk result (NothingIsLost (said_by said) facts.now) }
    ensures replayed { IfOk result (λ v. SaysAfter (said_by said) facts.now v.items) }
    ensures lost { IfErr result (TellsLoss (said_by said) facts.now) }
{
    let mut changes = Vec::new(alloc);
    for fact in facts {
        let before = said.remove(&fact.subject);
        let change = change_to(before, fact)?;
        push_if(&mut changes, change)?;
    }
    match said.pop_first() {
        None => Ok(changes),
        Some((subject, _)) => Err(Unrecorded::Lost(subject)),
    }
}

// Adds a change, if there is one.
fn push_if(
    changes: &mut Vec<PublishedChange>,
    change: Option<PublishedChange>,
) -> Result<(), AllocError>
    ensures { OnOk result (changes.new.items ≡ changes.old.items ++ option_to_list change) }
{
    if let Some(change) = change {
        changes.push(change)?;
    }
    Ok(())
}

/// What has to be recorded of a fact, if anything has to be, by what was said of its subject; or what was
/// lost.
pub fn change_to(
    before: Option<Details>,
    fact: &Fact,
) -> Result<Option<PublishedChange>, Unrecorded>
    ensures change { IfOk result (λ change. option_to_list change ≡ recorded before fact.now) }
    ensures stands { OnOk result (StandsIf before fact.now) }
    ensures lost { IfErr result (DoesNotStand before fact.now) }
{
    let Some(before) = before else {
        return Ok(Some(PublishedChange::Made(fact.copy()?)));
    };
    if !stands(&before, fact) {
        return Err(Unrecorded::Lost(fact.subject.copy()?));
    }
    if same_standing(&before.standing, &fact.details.standing) {
        return Ok(None);
    }
    Ok(Some(term_of(fact)?))
}

// The change by which the entry of a fact has its standing.
fn term_of(fact: &Fact) -> Result<PublishedChange, AllocError>
    ensures { IfOk result (λ change. change
        ≡ Term fact.now.subject.registry fact.now.subject.value fact.now.details.standing) }
{
    Ok(PublishedChange::Term(
        fact.subject.registry.copy()?,
        fact.subject.value.copy()?,
        fact.details.standing.copy()?,
    ))
}

// Whether what was said stands by a fact.
fn stands(before: &Details, fact: &Fact) -> bool
    ensures { result ≡ stands before.now fact.now }
{
    same_given(before, &fact.details)
        && (same_standing(&before.standing, &fact.details.standing)
            || (is_entry(&fact.subject)
                && is_no_earlier(&before.standing.expires, &fact.details.standing.expires)))
}

fn same_given(before: &Details, now: &Details) -> bool
    ensures { result ≡ same_given before.now now.now }
{
    before.description == now.description
        && before.policy == now.policy
        && before.first == now.first
        && before.assignee == now.assignee
}

fn same_standing(before: &PublishedStanding, now: &PublishedStanding) -> bool
    ensures { result ≡ same_standing before.now now.now }
{
    before.expires == now.expires && before.held == now.held
}

fn is_entry(subject: &Subject) -> bool
    ensures { result ≡ is_entry subject.now }
{
    matches!(subject.class, Class::Entry)
}

fn is_no_earlier(before: &Field, now: &Field) -> bool
    ensures { result ≡ is_no_earlier before.now now.now }
{
    if now.as_str().is_empty() {
        return true;
    }
    !before.as_str().is_empty() && before <= now
}

/// Says one change more. Only want of memory is an error.
pub fn apply(said: &mut Said, change: PublishedChange) -> Result<(), AllocError>
    ensures { OnOk result (Says said.new (after (said_by said.old) change)) }
{
    match change {
        PublishedChange::Made(fact) => {
            said.insert(fact.subject, fact.details)?;
            Ok(())
        }
        PublishedChange::Term(registry, value, standing) => set_standing(
            said,
            Subject {
                registry,
                class: Class::Entry,
                value,
            },
            standing,
        ),
    }
}

// Gives what is said of a subject another standing, if anything is.
fn set_standing(
    said: &mut Said,
    subject: Subject,
    standing: PublishedStanding,
) -> Result<(), AllocError>
    ensures { OnOk result
        (Says said.new (with_standing_at subject standing (said_by said.old))) }
{
    if let Some(details) = said.remove(&subject) {
        said.insert(subject, details.with_standing(standing))?;
    }
    Ok(())
}
