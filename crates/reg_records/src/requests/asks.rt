//! What the rows of requests ask for.
ghost use Rattle.std.specs.Prelude.{◌≡◌, IfOk};
ghost use Rattle.reg_records.specs.Requests.Reading.{want_in, rfc_of, rfc_in, evidence_in, early_in, code_in, early_ask_in, renewal_in, permanence_in, block_in, ask_in};

use crate::column;
use crate::column::are_null;
use crate::record::in_form;
use crate::requests::{
    ADDRESS, CHAIR, CONTACT, DIRECTOR, DRAFT, INTEREST, KIND, LABEL, LEAST, MINUTE, ORGANIZATION,
    REGISTRY, RFC_NUMBER, RFC_STREAM, RFC_TRACK, SIZE, SPECIFICATION, STABLE, STATE, VALUE,
    WILL_BE_RFC,
};
use reg_core::ask::{Ask, BlockAsk, CodeAsk, EarlyAsk, PermanenceAsk, RenewalAsk, Want};
use reg_core::ask_kind::AskKind;
use reg_early::evidence::EarlyEvidence;
use reg_ranges::evidence::{Evidence, Rfc, Stream, Track};
use sqlite::Row;
use std::alloc::{AllocError, Global};

/// The ask in a row, which has no value in the columns of other asks.
#[tactic(auto, unfolding(crate::specs::Requests::Reading::ask_in))]
pub(crate) fn ask(alloc: Global, row: &Row) -> Result<Option<Ask>, AllocError>
    ensures { IfOk result (λ ask. ask ≡ ask_in row.now) }
{
    let kind = in_form!(column::word(row, KIND));
    match kind {
        AskKind::Code => Ok(code(alloc, row)?.map(Ask::Code)),
        AskKind::Early => Ok(early(alloc, row)?.map(Ask::Early)),
        AskKind::Renew => Ok(renewal(alloc, row)?.map(Ask::Renew)),
        AskKind::Permanent => Ok(permanence(alloc, row)?.map(Ask::Permanent)),
        AskKind::Block => Ok(block(alloc, row)?.map(Ask::Block)),
    }
}

#[tactic(auto, unfolding(crate::specs::Requests::Reading::code_in))]
fn code(alloc: Global, row: &Row) -> Result<Option<CodeAsk>, AllocError>
    ensures { IfOk result (λ ask. ask ≡ code_in row.now) }
{
    if !are_null(row, DRAFT..STATE) {
        return Ok(None);
    }
    Ok(Some(CodeAsk {
        registry: in_form!(column::name(row, REGISTRY)),
        want: in_form!(want(row)),
        label: in_form!(column::printable(alloc, row, LABEL)?),
        evidence: in_form!(evidence(alloc, row)?),
    }))
}

#[tactic(auto, unfolding(crate::specs::Requests::Reading::early_ask_in))]
fn early(alloc: Global, row: &Row) -> Result<Option<EarlyAsk>, AllocError>
    ensures { IfOk result (λ ask. ask ≡ early_ask_in row.now) }
{
    if !are_null(row, CONTACT..DRAFT) || !are_null(row, SIZE..STATE) {
        return Ok(None);
    }
    Ok(Some(EarlyAsk {
        registry: in_form!(column::name(row, REGISTRY)),
        want: in_form!(want(row)),
        label: in_form!(column::printable(alloc, row, LABEL)?),
        evidence: in_form!(early_evidence(alloc, row)?),
    }))
}

#[tactic(auto, unfolding(crate::specs::Requests::Reading::renewal_in))]
fn renewal(alloc: Global, row: &Row) -> Result<Option<RenewalAsk>, AllocError>
    ensures { IfOk result (λ ask. ask ≡ renewal_in row.now) }
{
    if !are_null(row, LEAST..DRAFT) || !are_null(row, SIZE..STATE) {
        return Ok(None);
    }
    Ok(Some(RenewalAsk {
        registry: in_form!(column::name(row, REGISTRY)),
        value: in_form!(column::number(row, VALUE)),
        evidence: in_form!(early_evidence(alloc, row)?),
        iesg: None,
    }))
}

#[tactic(auto, unfolding(crate::specs::Requests::Reading::permanence_in))]
fn permanence(alloc: Global, row: &Row) -> Result<Option<PermanenceAsk>, AllocError>
    ensures { IfOk result (λ ask. ask ≡ permanence_in row.now) }
{
    if !are_null(row, LEAST..CONTACT) || !are_null(row, DRAFT..STATE) {
        return Ok(None);
    }
    Ok(Some(PermanenceAsk {
        registry: in_form!(column::name(row, REGISTRY)),
        value: in_form!(column::number(row, VALUE)),
        evidence: in_form!(evidence(alloc, row)?),
    }))
}

#[tactic(auto, unfolding(crate::specs::Requests::Reading::block_in))]
fn block(alloc: Global, row: &Row) -> Result<Option<BlockAsk>, AllocError>
    ensures { IfOk result (λ ask. ask ≡ block_in row.now) }
{
    if !are_null(row, REGISTRY..SIZE) {
        return Ok(None);
    }
    Ok(Some(BlockAsk {
        size: in_form!(column::word(row, SIZE)),
        organization: in_form!(column::printable(alloc, row, ORGANIZATION)?),
        address: in_form!(column::printable(alloc, row, ADDRESS)?),
    }))
}

#[tactic(auto, unfolding(crate::specs::Requests::Reading::want_in))]
fn want(row: &Row) -> Option<Want>
    ensures { result ≡ want_in row.now }
{
    let value = column::number_or_null(row, VALUE)?;
    let policy = column::word_or_null(row, LEAST)?;
    match (value, policy) {
        (Some(value), None) => Some(Want::Value(value)),
        (None, Some(policy)) => Some(Want::Least(policy)),
        (Some(_), Some(_)) | (None, None) => None,
    }
}

#[tactic(auto, unfolding(crate::specs::Requests::Reading::evidence_in))]
fn evidence(alloc: Global, row: &Row) -> Result<Option<Evidence>, AllocError>
    ensures { IfOk result (λ evidence. evidence ≡ evidence_in row.now) }
{
    Ok(Some(Evidence {
        contact: in_form!(column::printable_or_null(alloc, row, CONTACT)?),
        spec: in_form!(column::printable_or_null(alloc, row, SPECIFICATION)?),
        rfc: in_form!(rfc(row)),
        minute: in_form!(column::printable_or_null(alloc, row, MINUTE)?),
    }))
}

#[tactic(auto, unfolding(crate::specs::Requests::Reading::rfc_in))]
fn rfc(row: &Row) -> Option<Option<Rfc>>
    ensures { result ≡ rfc_in row.now }
{
    let number = column::number_or_null(row, RFC_NUMBER)?;
    let stream = column::word_or_null(row, RFC_STREAM)?;
    let track = column::word_or_null(row, RFC_TRACK)?;
    match (number, stream, track) {
        (None, None, None) => Some(None),
        (Some(number), Some(stream), Some(track)) => rfc_of(number, stream, track).map(Some),
        _ => None,
    }
}

fn rfc_of(number: u32, stream: Stream, track: Track) -> Option<Rfc>
    ensures { result ≡ rfc_of number stream track }
{
    Rfc::make(number, stream, track)
}

#[tactic(auto, unfolding(crate::specs::Requests::Reading::early_in))]
fn early_evidence(alloc: Global, row: &Row) -> Result<Option<EarlyEvidence>, AllocError>
    ensures { IfOk result (λ evidence. evidence ≡ early_in row.now) }
{
    Ok(Some(EarlyEvidence {
        draft: in_form!(column::printable_or_null(alloc, row, DRAFT)?),
        stable: in_form!(column::flag(row, STABLE)),
        interest: in_form!(column::flag(row, INTEREST)),
        chair: in_form!(column::printable_or_null(alloc, row, CHAIR)?),
        director: in_form!(column::printable_or_null(alloc, row, DIRECTOR)?),
        will_be_rfc: in_form!(column::flag(row, WILL_BE_RFC)),
    }))
}
