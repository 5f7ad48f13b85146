//! Writes CSV (RFC 4180 section 2) a record at a time, each ended by a line feed.
ghost use Rattle.std.specs.Prelude.{◌≡◌, ◌++◌, ℕ, List, [], map, IfOk, OnOk};
ghost use Rattle.reg_print.specs.Listing.{csv_text};
ghost use Rattle.reg_print.specs.Records.{Adds, HasWritten};

use csv::{Writer, WriterBuilder};
use std::alloc::{AllocError, Global};
use std::io::Write;

/// One record of these fields. Only memory can be wanting.
pub fn write_record<W: Write + Drop>(
    writer: &mut Writer<W>,
    fields: &[&[u8]],
) -> Result<(), AllocError>
    ensures { OnOk result (Adds W.contents writer.old writer.new (map (λ f. f.now) fields.now)) }
{
    match writer.write_fields(fields) {
        Ok(()) => Ok(()),
        Err(_) => Err(AllocError),
    }
}

/// A writer that has written nothing.
pub fn empty(alloc: Global) -> Writer<Vec<u8>>
    ensures { HasWritten ⟦<Vec<u8> as Write>⟧.contents result [] }
{
    WriterBuilder::new().from_writer(Vec::new(alloc))
}

/// The text of the records that were written.
pub fn text_of(writer: Writer<Vec<u8>>) -> Result<Vec<u8>, AllocError>
    ensures { (records : List (List (List ℕ)))
        → HasWritten ⟦<Vec<u8> as Write>⟧.contents writer records
        → IfOk result (λ v. v.items ≡ csv_text records) }
{
    match writer.into_inner() {
        Ok(text) => Ok(text),
        Err(_) => Err(AllocError),
    }
}

/// Appends the text of the records that were written. Only want of memory is an error.
pub fn push_text_of(out: &mut Vec<u8>, writer: Writer<Vec<u8>>) -> Result<(), AllocError>
    ensures { (records : List (List (List ℕ)))
        → HasWritten ⟦<Vec<u8> as Write>⟧.contents writer records
        → OnOk result (out.new.items ≡ out.old.items ++ csv_text records) }
{
    let text = text_of(writer)?;
    out.extend_from_slice(text.as_slice())?;
    Ok(())
}
