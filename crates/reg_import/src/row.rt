//! Reads rows of a register.
ghost use Rattle.std.specs.Prelude.{◌≡◌, IfOk, IfErr, Ok, Err};
ghost use Rattle.csv.specs.Records.{fields_of};
ghost use Rattle.reg_import.specs.Columns.{stands_in};
ghost use Rattle.reg_import.specs.Faults.{IsFaultOfImport};
ghost use Rattle.reg_import.specs.Rows.{assignee_in, early_in, entry_in, expires_in, first_in, for_good_in, is_met, kind_in, may_renew, policy_in, is_early, is_vacant, is_word_of, renewal_for, row_in, standing_in, value_in};

use crate::column::Column;
use crate::entry::{EarlyStanding, EntryKind, ListedEntry, ListedStanding};
use crate::evidence::{early_evidence_in, evidence_in};
use crate::fault::ImportRowFault;
use crate::fields::{RowFields, held_in, stands_in, text_in};
use crate::import::Import;
use crate::years::year_before;
use reg_core::text::Account;
use reg_early::day::{Day, year_after};
use reg_early::day_reading::read_day;
use reg_early::requirements::early_missing;
use reg_early::term;
use reg_print::listing::rows::RowStatus;
use reg_ranges::evidence::{Evidence, Item as EvidenceItem};
use reg_ranges::number::read_number;
use reg_ranges::policy::Policy;
use reg_ranges::requirements::{missing, needs_expert};
use std::alloc::Global;

/// The first day of the year 3000, in days since 1970-01-01: no office is open from then on.
const CLOSING_DAY: u32 = 376_200;

/// The entry that a row says; none where its values have none. Else its first fault: the count of
/// its fields, then its status, then its other columns, and at last what its policy asks for.
#[tactic(auto, unfolding(crate::specs::Rows::row_in))]
pub(crate) fn read_row(
    alloc: Global,
    import: &Import,
    fields: &RowFields<'_>,
) -> Result<Option<ListedEntry>, ImportRowFault>
    ensures entry { IfOk result (λ entry. row_in import.now
        (fields_of fields.now.header.now) (fields_of fields.now.row.now) ≡ Ok entry) }
    ensures fault { IfErr result (IsFaultOfImport (row_in import.now
        (fields_of fields.now.header.now) (fields_of fields.now.row.now))) }
{
    if fields.row.len() != fields.header.len() {
        return Err(ImportRowFault::Columns);
    }
    match kind_in(fields)? {
        Some(kind) => Ok(Some(entry_in(alloc, import, fields, kind)?)),
        None => Ok(None),
    }
}

// Which kind of entry the status of a row says; none where its values have no entry.
fn kind_in(fields: &RowFields<'_>) -> Result<Option<EntryKind>, ImportRowFault>
    ensures { result ≡ kind_in (stands_in fields.now) }
{
    let word = stands_in(fields, Column::Status);
    if is_vacant(word) {
        Ok(None)
    } else if is_word_of(word, RowStatus::Entry(term::Status::Assigned)) {
        Ok(Some(EntryKind::ForGood))
    } else if is_early(word) {
        Ok(Some(EntryKind::Early))
    } else {
        Err(ImportRowFault::Form(Column::Status))
    }
}

// Whether an entry of this status was allocated early.
fn is_early(word: &[u8]) -> bool
    ensures { result ≡ is_early word.now }
{
    is_word_of(word, RowStatus::Entry(term::Status::Temporary))
        || is_word_of(word, RowStatus::Entry(term::Status::Expired))
}

// Whether values of this status have no entry.
fn is_vacant(word: &[u8]) -> bool
    ensures { result ≡ is_vacant word.now }
{
    is_word_of(word, RowStatus::Unassigned)
        || is_word_of(word, RowStatus::Reserved)
        || is_word_of(word, RowStatus::PrivateUse)
        || is_word_of(word, RowStatus::ExperimentalUse)
        || is_word_of(word, RowStatus::HierarchicalAllocation)
}

fn is_word_of(word: &[u8], status: RowStatus) -> bool
    ensures { result ≡ is_word_of word.now status }
{
    word == status.word().as_bytes()
}

// The entry of a row of this kind.
fn entry_in(
    alloc: Global,
    import: &Import,
    fields: &RowFields<'_>,
    kind: EntryKind,
) -> Result<ListedEntry, ImportRowFault>
    ensures entry { IfOk result
        (λ entry. entry_in import.now kind (stands_in fields.now) ≡ Ok entry) }
    ensures fault { IfErr result (IsFaultOfImport (entry_in import.now kind (stands_in fields.now))) }
{
    let value = value_in(fields)?;
    let label = text_in(alloc, fields, Column::Description)?;
    let policy = policy_in(fields)?;
    let first = first_in(import, fields)?;
    let assignee = assignee_in(import, fields, policy)?;
    let standing = standing_in(alloc, fields, kind, policy, first, &assignee)?;
    Ok(ListedEntry {
        value,
        label,
        policy,
        first,
        assignee,
        standing,
    })
}

fn value_in(fields: &RowFields<'_>) -> Result<u32, ImportRowFault>
    ensures { result ≡ value_in (stands_in fields.now) }
{
    read_number(stands_in(fields, Column::Value)).ok_or(ImportRowFault::Form(Column::Value))
}

fn policy_in(fields: &RowFields<'_>) -> Result<Policy, ImportRowFault>
    ensures { result ≡ policy_in (stands_in fields.now) }
{
    Policy::read(stands_in(fields, Column::Policy)).ok_or(ImportRowFault::Form(Column::Policy))
}

// The first day, which is not after today.
fn first_in(import: &Import, fields: &RowFields<'_>) -> Result<Day, ImportRowFault>
    ensures { result ≡ first_in import.now (stands_in fields.now) }
{
    let first = read_day(stands_in(fields, Column::First)).ok_or(ImportRowFault::Form(
        Column::First,
    ))?;
    if first > import.today {
        return Err(ImportRowFault::Future);
    }
    Ok(first)
}

// The assignee, who is not the expert where one has to look at it.
fn assignee_in(
    import: &Import,
    fields: &RowFields<'_>,
    policy: Policy,
) -> Result<Account, ImportRowFault>
    ensures { result ≡ assignee_in import.now (stands_in fields.now) policy }
{
    let assignee = Account::read(stands_in(fields, Column::Assignee)).ok_or(ImportRowFault::Form(
        Column::Assignee,
    ))?;
    if needs_expert(policy) && assignee == import.expert {
        return Err(ImportRowFault::Own);
    }
    Ok(assignee)
}

fn standing_in(
    alloc: Global,
    fields: &RowFields<'_>,
    kind: EntryKind,
    policy: Policy,
    first: Day,
    assignee: &Account,
) -> Result<ListedStanding, ImportRowFault>
    ensures standing { IfOk result (λ standing.
        standing_in (stands_in fields.now) kind policy first assignee.now ≡ Ok standing) }
    ensures fault { IfErr result
        (IsFaultOfImport (standing_in (stands_in fields.now) kind policy first assignee.now)) }
{
    match kind {
        EntryKind::Early => Ok(ListedStanding::Early(early_in(alloc, fields, policy, first)?)),
        EntryKind::ForGood => {
            Ok(ListedStanding::ForGood(for_good_in(alloc, fields, policy, assignee)?))
        }
    }
}

// That an entry for good does not expire, is not held, and has what its policy asks for.
fn for_good_in(
    alloc: Global,
    fields: &RowFields<'_>,
    policy: Policy,
    assignee: &Account,
) -> Result<Evidence, ImportRowFault>
    ensures evidence { IfOk result
        (λ evidence. for_good_in (stands_in fields.now) policy assignee.now ≡ Ok evidence) }
    ensures fault { IfErr result
        (IsFaultOfImport (for_good_in (stands_in fields.now) policy assignee.now)) }
{
    if !stands_in(fields, Column::Expires).is_empty() {
        return Err(ImportRowFault::Expiry);
    }
    if held_in(fields)? {
        return Err(ImportRowFault::Held);
    }
    let evidence = evidence_in(alloc, fields, assignee)?;
    is_met(missing(policy, &evidence))?;
    Ok(evidence)
}

// That an early allocation expires on a day on which it can, and has what its policy asks for.
fn early_in(
    alloc: Global,
    fields: &RowFields<'_>,
    policy: Policy,
    first: Day,
) -> Result<EarlyStanding, ImportRowFault>
    ensures standing { IfOk result
        (λ standing. early_in (stands_in fields.now) policy first ≡ Ok standing) }
    ensures fault { IfErr result (IsFaultOfImport (early_in (stands_in fields.now) policy first)) }
{
    let expires = expires_in(fields)?;
    let renewal = renewal_for(first, expires)?;
    let evidence = early_evidence_in(alloc, fields)?;
    let held = held_in(fields)?;
    is_met(early_missing(policy, &evidence))?;
    Ok(EarlyStanding {
        expires,
        renewal,
        evidence,
        held,
    })
}

fn expires_in(fields: &RowFields<'_>) -> Result<Day, ImportRowFault>
    ensures { result ≡ expires_in (stands_in fields.now) }
{
    read_day(stands_in(fields, Column::Expires)).ok_or(ImportRowFault::Form(Column::Expires))
}

fn is_met(lacking: Option<EvidenceItem>) -> Result<(), ImportRowFault>
    ensures { result ≡ is_met lacking }
{
    match lacking {
        Some(item) => Err(ImportRowFault::Lacks(item)),
        None => Ok(()),
    }
}

// The day on which an early allocation was renewed that began on a day and expires on another; none
// where it was not renewed.
fn renewal_for(first: Day, expires: Day) -> Result<Option<Day>, ImportRowFault>
    ensures { result ≡ renewal_for first expires }
{
    if year_after(first) == expires {
        return Ok(None);
    }
    match year_before(expires) {
        Some(day) if may_renew(first, day) => Ok(Some(day)),
        _ => Err(ImportRowFault::Expiry),
    }
}

// Whether a renewal on a day ends a year after that day, and the office is open then.
fn may_renew(first: Day, day: Day) -> bool
    ensures { result ≡ may_renew first day }
{
    year_after(first) <= day && day.days() < CLOSING_DAY
}
