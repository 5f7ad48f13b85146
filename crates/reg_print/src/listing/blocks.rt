//! Writes the blocks that were given as CSV (RFC 4180 section 2), each record ended by a line feed.
ghost use Rattle.std.specs.Prelude.{◌≡◌, ◌∷◌, IfOk, OnOk, [], codes, unwrap_or};
ghost use Rattle.reg_print.specs.BlockListing.{block_fields, block_header, block_listing_text};
ghost use Rattle.reg_print.specs.Records.{Adds};

use crate::listing::writing::{empty, text_of, write_record};
use csv::Writer;
use reg_blocks::block_digits::BlockDigits;
use reg_core::holding::Listed;
use std::alloc::{AllocError, Global};
use std::io::Write;

const HEADER: [&[u8]; 4] = [
    b"Registry",
    b"Assignment",
    b"Organization Name",
    b"Organization Address",
];

/// These blocks as a listing. One writer writes all of its records.
pub fn block_listing(alloc: Global, rows: &[Listed]) -> Result<Vec<u8>, AllocError>
    ensures { IfOk result (λ v. v.items ≡ block_listing_text rows.now) }
{
    let mut writer = empty(alloc);
    write_header(&mut writer)?;
    for row in rows {
        write_row(&mut writer, row)?;
    }
    text_of(writer)
}

fn write_header<W: Write + Drop>(writer: &mut Writer<W>) -> Result<(), AllocError>
    ensures { OnOk result (Adds W.contents writer.old writer.new block_header) }
{
    write_record(writer, &HEADER)
}

fn write_row<W: Write + Drop>(writer: &mut Writer<W>, row: &Listed) -> Result<(), AllocError>
    ensures { OnOk result (Adds W.contents writer.old writer.new (block_fields row.now)) }
{
    let digits = BlockDigits::of(&row.block);
    let size = row.block.size();
    write_fields(
        writer,
        size.word(),
        digits.as_slice(),
        organization_text(row),
        address_text(row),
    )
}

// A record of the four fields of a row.
fn write_fields<'a, W: Write + Drop>(
    writer: &mut Writer<W>,
    size: &'a str,
    digits: &'a [u8],
    organization: &'a str,
    address: &'a str,
) -> Result<(), AllocError>
    ensures { OnOk result
        (Adds W.contents writer.old writer.new
        (size.now ∷ digits.now ∷ organization.now ∷ address.now ∷ [])) }
{
    write_record(
        writer,
        &[
            size.as_bytes(),
            digits,
            organization.as_bytes(),
            address.as_bytes(),
        ],
    )
}

/// The organization; of a private holder the word that says so.
pub fn organization_text(row: &Listed) -> &str
    ensures { result.now ≡ unwrap_or row.now.organization (codes "Private") }
{
    match &row.organization {
        Some(organization) => organization.as_str(),
        None => "Private",
    }
}

/// Where the organization is; nothing of a private holder.
pub fn address_text(row: &Listed) -> &str
    ensures { result.now ≡ unwrap_or row.now.address [] }
{
    match &row.address {
        Some(address) => address.as_str(),
        None => "",
    }
}
