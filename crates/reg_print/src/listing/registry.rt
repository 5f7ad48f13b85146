//! Writes registries as CSV (RFC 4180 section 2), each record ended by a line feed.
ghost use Rattle.std.specs.Prelude.{◌≡◌, ◌∷◌, ◌++◌, [], IfOk, OnOk};
ghost use Rattle.std.specs.String.{string_bytes};
ghost use Rattle.reg_print.specs.Listing.{assignee_text, csv_text, expiry_text, first_text, header, policy_text, row_fields, row_view, listing_text};
ghost use Rattle.reg_print.specs.Records.{Adds};

use crate::listing::rows::{ListingRow, rows};
use crate::listing::writing::{empty, push_text_of, text_of, write_record};
use csv::Writer;
use reg_core::page::Page;
use reg_early::day::day_text;
use reg_ranges::policy::Policy;
use std::alloc::{AllocError, Global};
use std::io::Write;

const HEADER: [&[u8]; 7] = [
    b"Value",
    b"Description",
    b"Status",
    b"Policy",
    b"First",
    b"Expires",
    b"Assignee",
];

/// A registry as a listing, whole. One writer writes all of its records, and one text has the values of
/// each in turn.
pub fn listing(alloc: Global, page: &Page) -> Result<Vec<u8>, AllocError>
    ensures { IfOk result (λ v. v.items ≡ listing_text page.now) }
{
    let rows = rows(alloc, page)?;
    let mut writer = empty(alloc);
    let mut values = String::new(alloc);
    write_header(&mut writer)?;
    for row in &rows {
        write_row(alloc, &mut writer, &mut values, row)?;
    }
    text_of(writer)
}

/// Appends what stands above the rows of a listing: the record of its columns. Only want of memory
/// is an error.
pub fn push_header(out: &mut Vec<u8>) -> Result<(), AllocError>
    ensures { OnOk result (out.new.items ≡ out.old.items ++ csv_text (header ∷ [])) }
{
    let mut writer = empty(*out.allocator());
    write_header(&mut writer)?;
    push_text_of(out, writer)
}

/// Appends the record of a row. Only want of memory is an error.
pub fn push_record(out: &mut Vec<u8>, row: &ListingRow<'_>) -> Result<(), AllocError>
    ensures { OnOk result
        (out.new.items ≡ out.old.items ++ csv_text (row_fields (row_view row.now) ∷ [])) }
{
    let alloc = *out.allocator();
    let mut writer = empty(alloc);
    let mut values = String::new(alloc);
    write_row(alloc, &mut writer, &mut values, row)?;
    push_text_of(out, writer)
}

fn write_header<W: Write + Drop>(writer: &mut Writer<W>) -> Result<(), AllocError>
    ensures { OnOk result (Adds W.contents writer.old writer.new header) }
{
    write_record(writer, &HEADER)
}

// A record of a row. `values` has room for its values, and those of an earlier row.
fn write_row<W: Write + Drop>(
    alloc: Global,
    writer: &mut Writer<W>,
    values: &mut String,
    row: &ListingRow<'_>,
) -> Result<(), AllocError>
    ensures { OnOk result (Adds W.contents writer.old writer.new (row_fields (row_view row.now))) }
{
    values.clear();
    write!(values, "{}", row.values)?;
    let first = first_text(alloc, row)?;
    let expiry = expiry_text(alloc, row)?;
    write_fields(
        writer,
        values.as_str(),
        row.description,
        row.status.word(),
        policy_word(row.policy),
        first.as_str(),
        expiry.as_str(),
        assignee_text(row),
    )
}

// A record of the seven fields of a row.
fn write_fields<'a, W: Write + Drop>(
    writer: &mut Writer<W>,
    values: &'a str,
    description: &'a str,
    status: &'a str,
    policy: &'a str,
    first: &'a str,
    expiry: &'a str,
    assignee: &'a str,
) -> Result<(), AllocError>
    ensures { OnOk result
        (Adds W.contents writer.old writer.new
        (values.now ∷ description.now ∷ status.now ∷ policy.now ∷ first.now ∷ expiry.now
        ∷ assignee.now ∷ [])) }
{
    write_record(
        writer,
        &[
            values.as_bytes(),
            description.as_bytes(),
            status.as_bytes(),
            policy.as_bytes(),
            first.as_bytes(),
            expiry.as_bytes(),
            assignee.as_bytes(),
        ],
    )
}

/// The day on which the entry was approved; nothing where there is none.
pub fn first_text(alloc: Global, row: &ListingRow<'_>) -> Result<String, AllocError>
    ensures { IfOk result (λ text. string_bytes text ≡ first_text (row_view row.now).entry) }
{
    match row.entry {
        Some(entry) => day_text(alloc, entry.term.first),
        None => Ok(String::new(alloc)),
    }
}

/// The day from which the entry no longer stands; nothing where there is none.
pub fn expiry_text(alloc: Global, row: &ListingRow<'_>) -> Result<String, AllocError>
    ensures { IfOk result (λ text. string_bytes text ≡ expiry_text (row_view row.now).entry) }
{
    let Some(entry) = row.entry else {
        return Ok(String::new(alloc));
    };
    match entry.term.expires {
        Some(day) => day_text(alloc, day),
        None => Ok(String::new(alloc)),
    }
}

/// Whose the entry is; nothing where there is none.
pub fn assignee_text<'a>(row: &ListingRow<'a>) -> &'a str
    ensures { result.now ≡ assignee_text (row_view row.now).entry }
{
    let Some(entry) = row.entry else {
        return "";
    };
    entry.assignee.as_str()
}

/// The word of a policy; nothing where there is none.
pub fn policy_word(policy: Option<Policy>) -> &'static str
    ensures { result.now ≡ policy_text policy }
{
    match policy {
        Some(policy) => policy.word(),
        None => "",
    }
}
