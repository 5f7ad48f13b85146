//! Turns a register into a script.
ghost use Rattle.std.specs.Prelude.{◌≡◌, IfOk, IfErr, Ok, OnOk, map};
ghost use Rattle.csv.specs.Records.{fields_of};
ghost use Rattle.reg_import.specs.Faults.{IsImportFaultOf};
ghost use Rattle.reg_import.specs.Rows.{row_in};
ghost use Rattle.reg_import.specs.Scripts.{IsAppended, numbered, records_script, rows_script, script_of};

use crate::column::is_header;
use crate::fault::{ImportFault, ImportRowFault};
use crate::fields::RowFields;
use crate::lines::push_entry;
use crate::records::records_of;
use crate::row::read_row;
use csv::ByteRecord;
use reg_core::text::{Account, Name, Token};
use reg_early::day::Day;
use std::alloc::Global;

/// What is imported, by whom, and when.
#[derive(Clone, Copy)]
pub struct Import {
    /// The registry whose entries the register says.
    pub registry: Name,
    /// The token of the clerk who approves them.
    pub clerk: Token,
    /// The account of the expert who advises on them.
    pub expert: Account,
    /// The day on which they are imported.
    pub today: Day,
}

/// The script that makes the entries of a register. Else the first fault, and then there is none.
pub fn script_of(alloc: Global, import: &Import, register: &[u8]) -> Result<Vec<u8>, ImportFault>
    ensures script { IfOk result (λ script. script_of import.now register.now ≡ Ok script.items) }
    ensures fault { IfErr result (IsImportFaultOf (script_of import.now register.now)) }
{
    let records = records_of(alloc, register)?;
    script_of_records(alloc, import, records.as_slice())
}

fn script_of_records(
    alloc: Global,
    import: &Import,
    records: &[ByteRecord],
) -> Result<Vec<u8>, ImportFault>
    ensures script { IfOk result
        (λ script. records_script import.now (map fields_of records.now) ≡ Ok script.items) }
    ensures fault { IfErr result
        (IsImportFaultOf (records_script import.now (map fields_of records.now))) }
{
    match records.split_first() {
        Some((header, rows)) if is_header(header) => script_of_rows(alloc, import, header, rows),
        _ => Err(ImportFault::Header),
    }
}

// The lines of the rows below a header, which count from 1.
fn script_of_rows(
    alloc: Global,
    import: &Import,
    header: &ByteRecord,
    rows: &[ByteRecord],
) -> Result<Vec<u8>, ImportFault>
    ensures script { IfOk result (λ script. rows_script import.now (fields_of header.now) 1
        (map fields_of rows.now) ≡ Ok script.items) }
    ensures fault { IfErr result (IsImportFaultOf
        (rows_script import.now (fields_of header.now) 1 (map fields_of rows.now))) }
{
    let mut script = Vec::new(alloc);
    for (i, row) in rows.iter().enumerate() {
        push_row(&mut script, import, i + 1, &RowFields { header, row })?;
    }
    Ok(script)
}

// Appends the lines of the row of a number.
fn push_row(
    script: &mut Vec<u8>,
    import: &Import,
    number: usize,
    fields: &RowFields<'_>,
) -> Result<(), ImportFault>
    ensures lines { OnOk result (IsAppended import.now number
        (fields_of fields.now.header.now) (fields_of fields.now.row.now)
        script.old.items script.new.items) }
    ensures fault { IfErr result (IsImportFaultOf (numbered number (row_in import.now
        (fields_of fields.now.header.now) (fields_of fields.now.row.now)))) }
{
    match read_row(*script.allocator(), import, fields) {
        Ok(Some(entry)) => Ok(push_entry(script, import, &entry)?),
        Ok(None) => Ok(()),
        Err(ImportRowFault::Memory) => Err(ImportFault::Memory),
        Err(fault) => Err(ImportFault::Row(number, fault)),
    }
}
