//! What the fields of a head say of the body and of who asks.
ghost use Rattle.std.specs.Prelude.{◌≡◌, ◌∷◌, ◌++◌, [], ℕ, List, codes, length, map, min, All};
ghost use Rattle.std.specs.Char.{is_ascii_digit};
ghost use Rattle.std.specs.List.{list_all};
ghost use Rattle.std.specs.Option.{option_copied};
ghost use Rattle.std.specs.Str.{str_eq_ignore_ascii_case};
ghost use Rattle.httparse.specs.Spans.{IsWithin, IsHeaderWithin, header_bytes, span_bytes};
ghost use Rattle.reg_head.specs.Fields.{length_of as length_said, announced as announced_by, length_by, number_from, skip_spaces as without_spaces, bearer as token_in, token_of as token_given};
ghost use Rattle.reg_head.specs.Found.{IsFieldFound, IsWithinIf, token_at};
ghost use Rattle.reg_head.specs.Head.{named};

use crate::malformed::Malformed;
use http::header;
use http::header::HeaderName;
use httparse::spans::{HeaderSpan, Span};

/// The most bytes of a body.
pub(crate) const MOST_BODY_BYTES: usize = 65_536;

/// The values of the fields with one name.
#[derive(Clone, Copy)]
enum Found {
    None,
    One(Span),
    Many,
}

/// How many bytes of a body the fields announce.
pub(crate) fn announced(buf: &[u8], headers: &[HeaderSpan]) -> Result<usize, Malformed>
    requires { All (IsHeaderWithin (length buf.now)) headers.now }
    ensures { result ≡ announced_by (map (header_bytes buf.now) headers.now) }
{
    match values_of(buf, headers, &header::TRANSFER_ENCODING) {
        Found::None => announced_length(buf, headers),
        Found::One(_) | Found::Many => Err(Malformed::Encoding),
    }
}

// The same, where there is no Transfer-Encoding.
fn announced_length(buf: &[u8], headers: &[HeaderSpan]) -> Result<usize, Malformed>
    requires { All (IsHeaderWithin (length buf.now)) headers.now }
    ensures { result ≡ length_by []
        (named (codes "content-length") (map (header_bytes buf.now) headers.now)) }
{
    match values_of(buf, headers, &header::CONTENT_LENGTH) {
        Found::None => Ok(0),
        Found::One(value) => length_of(value.of(buf)),
        Found::Many => Err(Malformed::Length),
    }
}

/// The value of the one Authorization field.
pub(crate) fn authorization(buf: &[u8], headers: &[HeaderSpan]) -> Option<Span>
    requires { All (IsHeaderWithin (length buf.now)) headers.now }
    ensures within { IsWithinIf (length buf.now) result }
    ensures token { token_at buf.now result
        ≡ token_given (map (header_bytes buf.now) headers.now) }
{
    match values_of(buf, headers, &header::AUTHORIZATION) {
        Found::One(value) => Some(value),
        Found::None | Found::Many => None,
    }
}

/// What follows the scheme Bearer and one or more spaces (RFC 6750 section 2.1).
pub(crate) fn bearer(value: &[u8]) -> Option<&[u8]>
    ensures { option_copied result ≡ token_in value.now }
{
    if value.len() >= 7 && value[..7].eq_ignore_ascii_case(b"Bearer ") {
        Some(skip_spaces(&value[7..]))
    } else {
        None
    }
}

fn skip_spaces(value: &[u8]) -> &[u8]
    ensures { result.now ≡ without_spaces value.now }
{
    let mut rest = value;
    while let [b' ', more @ ..] = rest {
        rest = more;
    }
    rest
}

fn length_of(value: &[u8]) -> Result<usize, Malformed>
    ensures { result ≡ length_said value.now }
{
    if value.is_empty() || !are_digits(value) {
        return Err(Malformed::Length);
    }
    let n = capped(value);
    if n <= MOST_BODY_BYTES {
        Ok(n)
    } else {
        Err(Malformed::Large)
    }
}

fn are_digits(value: &[u8]) -> bool
    ensures { result ≡ list_all is_ascii_digit value.now }
{
    value.iter().all(|b| b.is_ascii_digit())
}

// The number, or one more than a body may have where it is larger.
fn capped(value: &[u8]) -> usize
    ensures { result ≡ min (number_from 0 value.now) 65537 }
{
    let mut n = 0usize;
    for b in value {
        n = (n * 10 + usize::from(b.saturating_sub(48))).min(MOST_BODY_BYTES + 1);
    }
    n
}

// The values of the fields with this name, which is compared without case.
fn values_of(buf: &[u8], headers: &[HeaderSpan], name: &HeaderName) -> Found
    requires { All (IsHeaderWithin (length buf.now)) headers.now }
    ensures { IsFieldFound buf.now (named name.now (map (header_bytes buf.now) headers.now)) result }
{
    let mut found = Found::None;
    for header in headers {
        found = with_header(buf, found, *header, name);
    }
    found
}

// What is found with one header more.
fn with_header(buf: &[u8], found: Found, header: HeaderSpan, name: &HeaderName) -> Found
    requires { IsHeaderWithin (length buf.now) header }
    ensures { (values : List (List ℕ)) → IsFieldFound buf.now values found
        → IsFieldFound buf.now (values ++ named name.now (header_bytes buf.now header ∷ [])) result }
{
    if !has_name(buf, header, name) {
        return found;
    }
    match found {
        Found::None => Found::One(header.value),
        _ => Found::Many,
    }
}

fn has_name(buf: &[u8], header: HeaderSpan, name: &HeaderName) -> bool
    requires { IsWithin (length buf.now) header.name }
    ensures { result ≡ str_eq_ignore_ascii_case (span_bytes buf.now header.name) name.now }
{
    header
        .name
        .of(buf)
        .eq_ignore_ascii_case(name.as_str().as_bytes())
}
