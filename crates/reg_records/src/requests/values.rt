//! The values that are written of requests.
ghost use Rattle.std.specs.Prelude.{◌≡◌, IfOk, option_map, string_bytes};
ghost use Rattle.sqlite.specs.Value.{owned};
ghost use Rattle.sqlite.specs.Values.{bound, bound_value, or_null};
ghost use Rattle.sqlite.specs.declared.types.Value.TheVariants.{Text as TextValue};
ghost use Rattle.reg_core.specs.AskKind.{ask_kind_word, ask_kind_of};
ghost use Rattle.reg_records.specs.Requests.Values.{block_wanted_values, early_shown_values, early_values, evidence_values, given_text, least_wanted, reason_text, request_values, shown_values, state_values, value_wanted, wanted_values};

use crate::column::{flag_value, name_value, number_value, printable_value, word_value};
use reg_core::ask::{Ask, Want};
use reg_core::ask_kind::AskKind;
use reg_core::request::{Given, Request, State};
use reg_core::text::Text;
use reg_early::evidence::EarlyEvidence;
use reg_ranges::evidence::Evidence;
use sqlite::types::ValueRef;
use std::alloc::{AllocError, Global};

const NULL: ValueRef<'static> = ValueRef::Null;

/// What the column `given` has of a request that stands so.
pub fn given_text(alloc: Global, state: &State) -> Result<Option<String>, AllocError>
    ensures { IfOk result (λ given. option_map string_bytes given ≡ given_text state.now) }
{
    match state {
        State::Approved(Given::Value(value)) => Ok(Some(format!(in alloc; "{value}")?)),
        State::Approved(Given::Block(block)) => Ok(Some(block.text(alloc)?)),
        State::Pending | State::Declined(_) | State::Withdrawn => Ok(None),
    }
}

/// The columns of a request's state that are written: state, given, reason. The second is what
/// `given_text` makes of the state.
pub fn state_values<'a>(state: &'a State, given: &'a Option<String>) -> [ValueRef<'a>; 3]
    requires { option_map string_bytes given.now ≡ given_text state.now }
    ensures { bound result ≡ state_values state.now }
{
    [
        word_value(&state.word()),
        text_value(given),
        reason_value(state),
    ]
}

/// The row that is written for a request, all columns of the table. Its second argument is what
/// `given_text` makes of the request's state.
pub fn request_values<'a>(request: &'a Request, given: &'a Option<String>) -> [ValueRef<'a>; 25]
    requires { option_map string_bytes given.now ≡ given_text request.now.state }
    ensures { bound result ≡ request_values request.now }
{
    let ask = &request.ask;
    let [registry, value, least, label] = wanted_values(ask);
    let [contact, specification, number, stream, track, minute] = shown_values(ask);
    let [draft, stable, interest, chair, director, will_be_rfc] = early_shown_values(ask);
    let [size, organization, address] = block_wanted_values(ask);
    let [state, given, reason] = state_values(&request.state, given);
    [
        name_value(&request.account),
        name_value(&request.reference),
        kind_value(ask),
        registry,
        value,
        least,
        label,
        contact,
        specification,
        number,
        stream,
        track,
        minute,
        draft,
        stable,
        interest,
        chair,
        director,
        will_be_rfc,
        size,
        organization,
        address,
        state,
        given,
        reason,
    ]
}

// What the column `kind` has.
fn kind_value(ask: &Ask) -> ValueRef<'static>
    ensures { owned result ≡ TextValue (ask_kind_word (ask_kind_of ask.now)) }
{
    word_value(&AskKind::of(ask))
}

// registry, value, least, label
fn wanted_values(ask: &Ask) -> [ValueRef<'_>; 4]
    ensures { bound result ≡ wanted_values ask.now }
{
    match ask {
        Ask::Code(ask) => [
            name_value(&ask.registry),
            value_wanted(ask.want),
            least_wanted(ask.want),
            printable_value(&ask.label),
        ],
        Ask::Early(ask) => [
            name_value(&ask.registry),
            value_wanted(ask.want),
            least_wanted(ask.want),
            printable_value(&ask.label),
        ],
        Ask::Renew(ask) => [
            name_value(&ask.registry),
            number_value(ask.value),
            NULL,
            NULL,
        ],
        Ask::Permanent(ask) => [
            name_value(&ask.registry),
            number_value(ask.value),
            NULL,
            NULL,
        ],
        Ask::Block(_) => [NULL; 4],
    }
}

// contact, specification, rfc_number, rfc_stream, rfc_track, minute
fn shown_values(ask: &Ask) -> [ValueRef<'_>; 6]
    ensures { bound result ≡ shown_values ask.now }
{
    match ask {
        Ask::Code(ask) => evidence_values(&ask.evidence),
        Ask::Permanent(ask) => evidence_values(&ask.evidence),
        Ask::Early(_) | Ask::Renew(_) | Ask::Block(_) => [NULL; 6],
    }
}

// draft, stable, interest, chair, director, will_be_rfc
fn early_shown_values(ask: &Ask) -> [ValueRef<'_>; 6]
    ensures { bound result ≡ early_shown_values ask.now }
{
    match ask {
        Ask::Early(ask) => early_values(&ask.evidence),
        Ask::Renew(ask) => early_values(&ask.evidence),
        Ask::Code(_) | Ask::Permanent(_) | Ask::Block(_) => [NULL; 6],
    }
}

// size, organization, address
fn block_wanted_values(ask: &Ask) -> [ValueRef<'_>; 3]
    ensures { bound result ≡ block_wanted_values ask.now }
{
    match ask {
        Ask::Block(ask) => [
            word_value(&ask.size),
            printable_value(&ask.organization),
            printable_value(&ask.address),
        ],
        Ask::Code(_) | Ask::Early(_) | Ask::Renew(_) | Ask::Permanent(_) => [NULL; 3],
    }
}

// What the column `value` has of an ask for this.
fn value_wanted(want: Want) -> ValueRef<'static>
    ensures { owned result ≡ value_wanted want }
{
    match want {
        Want::Value(value) => number_value(value),
        Want::Least(_) => NULL,
    }
}

// What the column `least` has of an ask for this.
fn least_wanted(want: Want) -> ValueRef<'static>
    ensures { owned result ≡ least_wanted want }
{
    match want {
        Want::Value(_) => NULL,
        Want::Least(policy) => word_value(&policy),
    }
}

// contact, specification, rfc_number, rfc_stream, rfc_track, minute
fn evidence_values(evidence: &Evidence) -> [ValueRef<'_>; 6]
    ensures { bound result ≡ evidence_values evidence.now }
{
    let (number, stream, track) = match &evidence.rfc {
        Some(rfc) => (
            number_value(rfc.number()),
            word_value(&rfc.stream()),
            word_value(&rfc.track()),
        ),
        None => (NULL, NULL, NULL),
    };
    [
        note_value(&evidence.contact),
        note_value(&evidence.spec),
        number,
        stream,
        track,
        note_value(&evidence.minute),
    ]
}

// draft, stable, interest, chair, director, will_be_rfc
fn early_values(evidence: &EarlyEvidence) -> [ValueRef<'_>; 6]
    ensures { bound result ≡ early_values evidence.now }
{
    [
        note_value(&evidence.draft),
        flag_value(evidence.stable),
        flag_value(evidence.interest),
        note_value(&evidence.chair),
        note_value(&evidence.director),
        flag_value(evidence.will_be_rfc),
    ]
}

// What the column `reason` has.
fn reason_value(state: &State) -> ValueRef<'_>
    ensures { bound_value (owned result) ≡ or_null TextValue (reason_text state.now) }
{
    match state {
        State::Declined(reason) => printable_value(reason),
        State::Pending | State::Approved(_) | State::Withdrawn => NULL,
    }
}

// What is written for a printable text that may be missing: NULL for none.
fn note_value(note: &Option<Text>) -> ValueRef<'_>
    ensures { bound_value (owned result) ≡ or_null TextValue note.now }
{
    match note {
        Some(text) => printable_value(text),
        None => NULL,
    }
}

// What is written for a text that may be missing: NULL for none.
fn text_value(text: &Option<String>) -> ValueRef<'_>
    ensures { bound_value (owned result) ≡ or_null TextValue (option_map string_bytes text.now) }
{
    match text {
        Some(text) => ValueRef::Text(text.as_bytes()),
        None => NULL,
    }
}
