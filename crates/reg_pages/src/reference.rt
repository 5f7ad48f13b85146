//! What notes refer to, and where that is.
ghost use Rattle.std.specs.Prelude.{◌≡◌, ◌<◌, ◌++◌, codes, length, option_map, position, string_bytes, IfOk, IfSome, OnOk};
ghost use Rattle.std.specs.Fmt.{decimal};
ghost use Rattle.reg_pages.specs.Appended.{Shown};
ghost use Rattle.reg_pages.specs.Document.{link};
ghost use Rattle.reg_pages.specs.Reference.{address_of, by_address, is_no_digit, is_space, reference_markup, rfc_of, rfc_place, until, xref, xref_by_address, xref_of};

use crate::markup::Piece::{Link, Markup, Text};
use crate::markup::push_all;
use crate::words::as_text;
use reg_ranges::number::read_number;
use std::alloc::{AllocError, Global};

/// Appends a reference, which is a link where it begins with an RFC or an address. Only want of memory
/// is an error.
pub fn push_reference(out: &mut Vec<u8>, reference: &str) -> Result<(), AllocError>
    ensures { OnOk result (Shown out.old.items out.new.items (reference_markup reference.now)) }
{
    match rfc_of(reference.as_bytes()) {
        Some(n) => push_rfc(out, n, reference),
        None => push_by_address(out, reference),
    }
}

fn push_rfc(out: &mut Vec<u8>, n: u32, reference: &str) -> Result<(), AllocError>
    ensures { OnOk result (Shown out.old.items out.new.items (link (rfc_place n) reference.now)) }
{
    let place = rfc_place(*out.allocator(), n)?;
    push_all(out, &[Link(place.as_str(), reference)])
}

fn rfc_place(alloc: Global, n: u32) -> Result<String, AllocError>
    ensures { IfOk result (λ place. string_bytes place ≡ rfc_place n) }
{
    format!(in alloc; "https://www.rfc-editor.org/rfc/rfc{n}")
}

fn push_by_address(out: &mut Vec<u8>, reference: &str) -> Result<(), AllocError>
    ensures { OnOk result
        (Shown out.old.items out.new.items (by_address (address_of reference.now) reference.now)) }
{
    match address_of(reference.as_bytes()) {
        Some(address) => push_all(out, &[Link(address, reference)]),
        None => push_all(out, &[Text(reference)]),
    }
}

// ---- In a file for programs

/// Appends a reference in IANA's form; nothing where there is none. Only want of memory is an error.
pub fn push_xref(out: &mut Vec<u8>, reference: &str) -> Result<(), AllocError>
    ensures { OnOk result (Shown out.old.items out.new.items (xref_of reference.now)) }
{
    if reference.is_empty() {
        return Ok(());
    }
    match rfc_of(reference.as_bytes()) {
        Some(n) => push_xref_rfc(out, n),
        None => push_xref_by_address(out, reference),
    }
}

fn push_xref_rfc(out: &mut Vec<u8>, n: u32) -> Result<(), AllocError>
    ensures { OnOk result
        (Shown out.old.items out.new.items (xref (codes "rfc") (codes "rfc" ++ decimal n))) }
{
    let target = format!(in *out.allocator(); "rfc{n}")?;
    push_xref_texts(out, "rfc", target.as_str())
}

fn push_xref_by_address(out: &mut Vec<u8>, reference: &str) -> Result<(), AllocError>
    ensures { OnOk result
        (Shown out.old.items out.new.items (xref_by_address (address_of reference.now) reference.now)) }
{
    match address_of(reference.as_bytes()) {
        Some(address) => push_xref_texts(out, "uri", address),
        None => push_xref_texts(out, "text", reference),
    }
}

fn push_xref_texts<'a>(out: &mut Vec<u8>, kind: &'a str, target: &'a str) -> Result<(), AllocError>
    ensures { OnOk result (Shown out.old.items out.new.items (xref kind.now target.now)) }
{
    push_all(
        out,
        &[
            Markup("<xref type=\""),
            Text(kind),
            Markup("\" data=\""),
            Text(target),
            Markup("\"></xref>"),
        ],
    )
}

// ---- Where it is

// The number of the RFC by which a reference begins.
fn rfc_of(reference: &[u8]) -> Option<u32>
    ensures { result ≡ rfc_of reference.now }
{
    if !reference.starts_with(b"RFC ".as_slice()) {
        return None;
    }
    read_number(digits_of(&reference[4..]))
}

// The address by which a reference begins.
fn address_of(reference: &[u8]) -> Option<&str>
    ensures { option_map (λ a. a.now) result ≡ address_of reference.now }
{
    if reference.starts_with(b"https://".as_slice())
        || reference.starts_with(b"http://".as_slice())
    {
        as_text(before_space(reference))
    } else {
        None
    }
}

fn digits_of(bytes: &[u8]) -> &[u8]
    ensures { result.now ≡ until is_no_digit bytes.now }
{
    match first_no_digit(bytes) {
        Some(end) => &bytes[..end],
        None => bytes,
    }
}

fn before_space(bytes: &[u8]) -> &[u8]
    ensures { result.now ≡ until is_space bytes.now }
{
    match first_space(bytes) {
        Some(end) => &bytes[..end],
        None => bytes,
    }
}

fn first_no_digit(bytes: &[u8]) -> Option<usize>
    ensures value { result ≡ position is_no_digit bytes.now }
    ensures within { IfSome result (λ at. at < length bytes.now) }
{
    bytes.iter().position(|b| !b.is_ascii_digit())
}

fn first_space(bytes: &[u8]) -> Option<usize>
    ensures value { result ≡ position is_space bytes.now }
    ensures within { IfSome result (λ at. at < length bytes.now) }
{
    bytes.iter().position(|b| *b == b' ')
}
