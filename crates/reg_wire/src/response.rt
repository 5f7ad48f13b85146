//! Answers as HTTP/1.1 writes them.
ghost use Rattle.std.specs.Prelude.{◌≡◌, ◌++◌, ◌<◌, ◌^◌, IfOk, OnOk, length, string_bytes};
ghost use Rattle.std.specs.Fmt.{decimal};
ghost use Rattle.reg_wire.specs.Response.{malformed_status, malformed_body, media_type, reason, sent_as, status_line, field_line, head_text, response_text, reply_text};

use crate::log::Sent;
use http::StatusCode;
use reg_head::malformed::Malformed;
use reg_print::answer::{Answer, Format, body_of};
use std::alloc::{AllocError, Global};

/// What is answered to the bytes of a request.
#[derive(Drop)]
pub enum Response {
    /// The answer to the call that they are.
    Answer(Answer),
    /// They are no request.
    Malformed(Malformed),
}

/// Room for the head of an answer.
const HEAD_BYTES: usize = 160;

/// The bytes of an answer (RFC 9112 sections 4 and 6): its status line, `Content-Type`,
/// `Content-Length`, `Connection: close`, an empty line, and the body that `body_of` prints.
pub fn reply_bytes(alloc: Global, answer: &Answer) -> Result<Vec<u8>, AllocError>
    ensures { IfOk result (λ v. v.items ≡ reply_text answer.now) }
{
    let (_, bytes) = answer_bytes(alloc, answer)?;
    Ok(bytes)
}

/// The bytes of what is answered to the bytes of a request, and what is told of them once they are
/// written.
pub(crate) fn response_bytes(
    alloc: Global,
    response: &Response,
) -> Result<(Sent, Vec<u8>), AllocError>
    ensures sent { IfOk result (λ r. r.0 ≡ sent_as response.now) }
    ensures bytes { IfOk result (λ r. r.1.items ≡ response_text response.now) }
{
    match response {
        Response::Answer(answer) => answer_bytes(alloc, answer),
        Response::Malformed(why) => malformed_bytes(alloc, *why),
    }
}

#[tactic(auto, unfolding(crate::specs::Response::response_text))]
fn answer_bytes(alloc: Global, answer: &Answer) -> Result<(Sent, Vec<u8>), AllocError>
    ensures sent { IfOk result (λ r. r.0 ≡ sent_as (Response.Answer answer.now)) }
    ensures bytes { IfOk result (λ r. r.1.items ≡ reply_text answer.now) }
{
    let (_, body) = body_of(alloc, answer)?;
    let sent = Sent {
        status: answer.status(),
        body: body.len(),
    };
    let media = media_type(answer.format());
    let bytes = message(alloc, sent.status, media, body.as_slice())?;
    Ok((sent, bytes))
}

#[tactic(auto, unfolding(crate::specs::Response::response_text))]
fn malformed_bytes(alloc: Global, why: Malformed) -> Result<(Sent, Vec<u8>), AllocError>
    ensures sent { IfOk result (λ r. r.0 ≡ sent_as (Response.Malformed why)) }
    ensures bytes { IfOk result
        (λ r. r.1.items ≡ response_text (Response.Malformed why)) }
{
    let body = malformed_body(why);
    let sent = Sent {
        status: malformed_status(why),
        body: body.len(),
    };
    let bytes = message(alloc, sent.status, media_type(Format::Json), body)?;
    Ok((sent, bytes))
}

fn malformed_status(why: Malformed) -> StatusCode
    ensures { result ≡ malformed_status why }
{
    match why {
        Malformed::Head | Malformed::Length | Malformed::Short => StatusCode::BAD_REQUEST,
        Malformed::Large => StatusCode::PAYLOAD_TOO_LARGE,
        Malformed::Encoding => StatusCode::NOT_IMPLEMENTED,
    }
}

fn malformed_body(why: Malformed) -> &'static [u8]
    ensures { result.now ≡ malformed_body why }
{
    match why {
        Malformed::Head => b"{\"error\":\"head\"}",
        Malformed::Encoding => b"{\"error\":\"encoding\"}",
        Malformed::Length => b"{\"error\":\"length\"}",
        Malformed::Large => b"{\"error\":\"large\"}",
        Malformed::Short => b"{\"error\":\"short\"}",
    }
}

fn media_type(format: Format) -> &'static str
    ensures { result.now ≡ media_type format }
{
    match format {
        Format::Json => "application/json",
        Format::Csv => "text/csv",
    }
}

// A head, and the body after it, in one piece of memory.
fn message(
    alloc: Global,
    status: StatusCode,
    media: &str,
    body: &[u8],
) -> Result<Vec<u8>, AllocError>
    ensures { IfOk result
        (λ v. v.items ≡ head_text status media.now (length body.now) ++ body.now) }
{
    let mut bytes = head(alloc, status, media, body.len())?.into_bytes();
    bytes.extend_from_slice(body)?;
    Ok(bytes)
}

#[tactic(auto, unfolding(crate::specs::Response::head_text))]
fn head(alloc: Global, status: StatusCode, media: &str, count: usize) -> Result<String, AllocError>
    requires { count < 2 ^ 63 }
    ensures { IfOk result (λ s. string_bytes s ≡ head_text status media.now count) }
{
    let mut text = String::with_capacity(alloc, HEAD_BYTES + count)?;
    push_status(&mut text, status)?;
    push_field(&mut text, "Content-Type", media)?;
    push_number(alloc, &mut text, "Content-Length", count)?;
    push_field(&mut text, "Connection", "close")?;
    text.push_str("\r\n")?;
    Ok(text)
}

fn push_status(text: &mut String, status: StatusCode) -> Result<(), AllocError>
    ensures { OnOk result
        (string_bytes text.new ≡ string_bytes text.old ++ status_line status) }
{
    text.push_str("HTTP/1.1 ")?;
    text.push_str(digits(status))?;
    text.push_str(" ")?;
    text.push_str(reason(status))?;
    text.push_str("\r\n")?;
    Ok(())
}

/// The number of a status in decimal.
#[tactic(auto, using(crate::proofs::StatusDigits::decimal_code))]
pub fn digits(status: StatusCode) -> &'static str
    ensures { result.now ≡ decimal status }
{
    status.as_str()
}

fn push_field(text: &mut String, name: &str, value: &str) -> Result<(), AllocError>
    ensures { OnOk result
        (string_bytes text.new ≡ string_bytes text.old ++ field_line name.now value.now) }
{
    text.push_str(name)?;
    text.push_str(": ")?;
    text.push_str(value)?;
    text.push_str("\r\n")?;
    Ok(())
}

fn push_number(alloc: Global, text: &mut String, name: &str, n: usize) -> Result<(), AllocError>
    ensures { OnOk result
        (string_bytes text.new ≡ string_bytes text.old ++ field_line name.now (decimal n)) }
{
    let digits = n.to_string(alloc)?;
    push_field(text, name, digits.as_str())
}

/// The phrase of a status (RFC 9110 section 15); empty for one that no answer has.
pub fn reason(status: StatusCode) -> &'static str
    ensures { result.now ≡ reason status }
{
    match status {
        StatusCode::OK
        | StatusCode::CREATED
        | StatusCode::BAD_REQUEST
        | StatusCode::UNAUTHORIZED
        | StatusCode::FORBIDDEN
        | StatusCode::NOT_FOUND
        | StatusCode::METHOD_NOT_ALLOWED
        | StatusCode::CONFLICT
        | StatusCode::PAYLOAD_TOO_LARGE
        | StatusCode::UNPROCESSABLE_ENTITY
        | StatusCode::NOT_IMPLEMENTED
        | StatusCode::SERVICE_UNAVAILABLE => status.canonical_reason().unwrap_or(""),
        _ => "",
    }
}
