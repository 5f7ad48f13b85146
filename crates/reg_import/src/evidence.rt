//! What policies ask for, as the columns of a row have it.
ghost use Rattle.std.specs.Prelude.{◌≡◌, IfOk, IfErr};
ghost use Rattle.reg_import.specs.Columns.{stands_in};
ghost use Rattle.reg_import.specs.Faults.{IsFaultOfImport};
ghost use Rattle.reg_import.specs.Rows.{contact_in, early_evidence_in, evidence_in, rfc_in};

use crate::column::Column;
use crate::fault::ImportRowFault;
use crate::fields::{RowFields, mark_in, note_in, stands_in, text_in};
use reg_core::text::{Account, Text};
use reg_early::evidence::EarlyEvidence;
use reg_ranges::evidence::{Evidence, Rfc, Stream, Track};
use reg_ranges::number::read_number;
use std::alloc::Global;

/// The evidence for an assignment to an account.
pub(crate) fn evidence_in(
    alloc: Global,
    fields: &RowFields<'_>,
    assignee: &Account,
) -> Result<Evidence, ImportRowFault>
    ensures evidence { IfOk result
        (λ evidence. evidence_in (stands_in fields.now) assignee.now ≡ Ok evidence) }
    ensures fault { IfErr result (IsFaultOfImport (evidence_in (stands_in fields.now) assignee.now)) }
{
    let contact = contact_in(alloc, fields, assignee)?;
    let spec = note_in(alloc, fields, Column::Specification)?;
    let rfc = rfc_in(fields)?;
    let minute = note_in(alloc, fields, Column::Minute)?;
    Ok(Evidence {
        contact: Some(contact),
        spec,
        rfc,
        minute,
    })
}

// Who can be asked; the assignee where nobody is named.
fn contact_in(
    alloc: Global,
    fields: &RowFields<'_>,
    assignee: &Account,
) -> Result<Text, ImportRowFault>
    ensures contact { IfOk result
        (λ contact. contact_in (stands_in fields.now) assignee.now ≡ Ok contact) }
    ensures fault { IfErr result (IsFaultOfImport (contact_in (stands_in fields.now) assignee.now)) }
{
    if !stands_in(fields, Column::Contact).is_empty() {
        return text_in(alloc, fields, Column::Contact);
    }
    match Text::read(alloc, assignee.as_str().as_bytes())? {
        Some(text) => Ok(text),
        None => Err(ImportRowFault::Form(Column::Contact)),
    }
}

// The RFC, where its number is there.
fn rfc_in(fields: &RowFields<'_>) -> Result<Option<Rfc>, ImportRowFault>
    ensures { result ≡ rfc_in (stands_in fields.now) }
{
    let digits = stands_in(fields, Column::Rfc);
    if digits.is_empty() {
        return Ok(None);
    }
    let number = read_number(digits).ok_or(ImportRowFault::Form(Column::Rfc))?;
    let stream = Stream::read(stands_in(fields, Column::Stream)).ok_or(ImportRowFault::Form(
        Column::Stream,
    ))?;
    let track = Track::read(stands_in(fields, Column::Track)).ok_or(ImportRowFault::Form(
        Column::Track,
    ))?;
    match Rfc::make(number, stream, track) {
        Some(rfc) => Ok(Some(rfc)),
        None => Err(ImportRowFault::Form(Column::Rfc)),
    }
}

/// The evidence for an early allocation.
pub(crate) fn early_evidence_in(
    alloc: Global,
    fields: &RowFields<'_>,
) -> Result<EarlyEvidence, ImportRowFault>
    ensures evidence { IfOk result
        (λ evidence. early_evidence_in (stands_in fields.now) ≡ Ok evidence) }
    ensures fault { IfErr result (IsFaultOfImport (early_evidence_in (stands_in fields.now))) }
{
    let draft = note_in(alloc, fields, Column::Draft)?;
    let stable = mark_in(fields, Column::Stable)?;
    let interest = mark_in(fields, Column::Interest)?;
    let chair = note_in(alloc, fields, Column::Chair)?;
    let director = note_in(alloc, fields, Column::Director)?;
    let will_be_rfc = mark_in(fields, Column::WillBeRfc)?;
    Ok(EarlyEvidence {
        draft,
        stable,
        interest,
        chair,
        director,
        will_be_rfc,
    })
}
