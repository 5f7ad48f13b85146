//! The fields of a row, by their columns.
ghost use Rattle.std.specs.Prelude.{◌≡◌, ◌<◌, IfOk, IfErr};
ghost use Rattle.reg_import.specs.Columns.{place_of, stands_in};
ghost use Rattle.reg_import.specs.Faults.{IsFaultOfImport};
ghost use Rattle.reg_import.specs.Rows.{held_in, mark_in, note_in, text_in};

use crate::column::{Column, place_of};
use crate::fault::ImportRowFault;
use csv::ByteRecord;
use reg_core::text::Text;
use std::alloc::Global;

/// A row below its header.
#[derive(Clone, Copy)]
pub(crate) struct RowFields<'a> {
    pub header: &'a ByteRecord,
    pub row: &'a ByteRecord,
}

/// What stands in a column; nothing where there is no such column.
pub(crate) fn stands_in<'a>(fields: &RowFields<'a>, column: Column) -> &'a [u8]
    ensures { result.now ≡ stands_in fields.now column }
{
    match place_of(fields.header, column) {
        Some(place) => fields.row.get(place).unwrap_or(b""),
        None => b"",
    }
}

/// The text of a column that has one.
pub(crate) fn text_in(
    alloc: Global,
    fields: &RowFields<'_>,
    column: Column,
) -> Result<Text, ImportRowFault>
    ensures text { IfOk result (λ text. text_in (stands_in fields.now) column ≡ Ok text) }
    ensures fault { IfErr result (IsFaultOfImport (text_in (stands_in fields.now) column)) }
{
    match Text::read(alloc, stands_in(fields, column))? {
        Some(text) => Ok(text),
        None => Err(ImportRowFault::Form(column)),
    }
}

/// The text of a column that may be empty.
pub(crate) fn note_in(
    alloc: Global,
    fields: &RowFields<'_>,
    column: Column,
) -> Result<Option<Text>, ImportRowFault>
    ensures note { IfOk result (λ note. note_in (stands_in fields.now) column ≡ Ok note) }
    ensures fault { IfErr result (IsFaultOfImport (note_in (stands_in fields.now) column)) }
{
    if stands_in(fields, column).is_empty() {
        return Ok(None);
    }
    Ok(Some(text_in(alloc, fields, column)?))
}

/// The mark of a column: true, false, or empty for false.
pub(crate) fn mark_in(fields: &RowFields<'_>, column: Column) -> Result<bool, ImportRowFault>
    ensures { result ≡ mark_in (stands_in fields.now) column }
{
    let word = stands_in(fields, column);
    if word == b"true".as_slice() {
        Ok(true)
    } else if word.is_empty() || word == b"false".as_slice() {
        Ok(false)
    } else {
        Err(ImportRowFault::Form(column))
    }
}

/// Whether the entry is held: the column has held, or is empty.
pub(crate) fn held_in(fields: &RowFields<'_>) -> Result<bool, ImportRowFault>
    ensures { result ≡ held_in (stands_in fields.now) }
{
    let word = stands_in(fields, Column::Held);
    if word == b"held".as_slice() {
        Ok(true)
    } else if word.is_empty() {
        Ok(false)
    } else {
        Err(ImportRowFault::Form(Column::Held))
    }
}
