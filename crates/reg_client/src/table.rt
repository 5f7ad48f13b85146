//! Allocations that are due, as CSV (RFC 4180 section 2), each record ended by a line feed.
ghost use Rattle.std.specs.Prelude.{◌≡◌, ◌∷◌, [], IfOk, OnOk};
ghost use Rattle.reg_print.specs.Records.{Adds};
ghost use Rattle.reg_client.specs.Table.{IsDueTable, due_fields, due_header, due_text, held_text};

use crate::allocation::DueAllocation;
use csv::Writer;
use reg_early::day::day_text;
use reg_print::listing::writing::{empty, text_of, write_record};
use std::alloc::{AllocError, Global};
use std::io::Write;

const HEADER: [&[u8]; 6] = [
    b"Registry",
    b"Value",
    b"Description",
    b"Assignee",
    b"Expires",
    b"Held",
];

/// The table of allocations, by expiry day, registry and value. Only want of memory is an error.
pub fn due_table(alloc: Global, mut due: Vec<DueAllocation>) -> Result<Vec<u8>, AllocError>
    ensures { IfOk result (λ text. IsDueTable due.items text.items) }
{
    due.sort_by_key(|one| (one.expires, (one.registry, one.value)))?;
    table_of(alloc, due.as_slice())
}

// The header, and the record of each, in this order.
fn table_of(alloc: Global, due: &[DueAllocation]) -> Result<Vec<u8>, AllocError>
    ensures { IfOk result (λ text. text.items ≡ due_text due.now) }
{
    let mut writer = empty(alloc);
    write_header(&mut writer)?;
    for one in due {
        write_row(alloc, &mut writer, one)?;
    }
    text_of(writer)
}

fn write_header<W: Write + Drop>(writer: &mut Writer<W>) -> Result<(), AllocError>
    ensures { OnOk result (Adds W.contents writer.old writer.new due_header) }
{
    write_record(writer, &HEADER)
}

fn write_row<W: Write + Drop>(
    alloc: Global,
    writer: &mut Writer<W>,
    one: &DueAllocation,
) -> Result<(), AllocError>
    ensures { OnOk result (Adds W.contents writer.old writer.new (due_fields one.now)) }
{
    let value = format!(in alloc; "{}", one.value)?;
    let expires = day_text(alloc, one.expires)?;
    write_fields(
        writer,
        one.registry.as_str(),
        value.as_str(),
        one.description.as_str(),
        one.assignee.as_str(),
        expires.as_str(),
        held_text(one.held),
    )
}

// A record of these six fields.
fn write_fields<'a, W: Write + Drop>(
    writer: &mut Writer<W>,
    registry: &'a str,
    value: &'a str,
    description: &'a str,
    assignee: &'a str,
    expires: &'a str,
    held: &'a str,
) -> Result<(), AllocError>
    ensures { OnOk result
        (Adds W.contents writer.old writer.new
        (registry.now ∷ value.now ∷ description.now ∷ assignee.now ∷ expires.now ∷ held.now
        ∷ [])) }
{
    write_record(
        writer,
        &[
            registry.as_bytes(),
            value.as_bytes(),
            description.as_bytes(),
            assignee.as_bytes(),
            expires.as_bytes(),
            held.as_bytes(),
        ],
    )
}

// The word of an allocation that is held; nothing where it is not.
fn held_text(held: bool) -> &'static str
    ensures { result.now ≡ held_text held }
{
    if held { "held" } else { "" }
}
