//! The records of a register.
ghost use Rattle.std.specs.Prelude.{◌≡◌, ◌∷◌, ◌++◌, [], ◌<◌, ℕ, List, map, IfOk, MatchOption, OnSome};
ghost use Rattle.csv.specs.Reading.{owned_rows_left};
ghost use Rattle.csv.specs.Records.{fields_of};
ghost use Rattle.reg_ranges.specs.RowReading.{HasRead, text_rows};

use csv::{ByteRecord, ByteRecordsIntoIter, ReaderBuilder};
use std::alloc::{AllocError, Global};

/// All records of a text: a byte order mark, blank lines and quotes are what CSV makes of them
/// (RFC 4180).
pub(crate) fn records_of(alloc: Global, text: &[u8]) -> Result<Vec<ByteRecord>, AllocError>
    ensures { IfOk result (λ records. map fields_of records.items ≡ text_rows text.now) }
{
    let mut rows = rows_of(alloc, text);
    all_of(alloc, &mut rows)
}

// The records that a reader still has to give.
fn all_of(
    alloc: Global,
    rows: &mut ByteRecordsIntoIter<&[u8]>,
) -> Result<Vec<ByteRecord>, AllocError>
    ensures { (text : List ℕ) → HasRead text [] rows.old
        → IfOk result (λ records. map fields_of records.items ≡ text_rows text) }
{
    let mut records = Vec::new(alloc);
    while let Some(record) = next_row(rows)? {
        records.push(record)?;
    }
    Ok(records)
}

fn rows_of(alloc: Global, text: &[u8]) -> ByteRecordsIntoIter<&[u8]>
    ensures { HasRead text.now [] result }
{
    ReaderBuilder::new()
        .has_headers(false)
        .flexible(true)
        .from_reader(alloc, text)
        .into_byte_records()
}

fn next_row(rows: &mut ByteRecordsIntoIter<&[u8]>) -> Result<Option<ByteRecord>, AllocError>
    ensures row { (text : List ℕ) (done : List (List (List ℕ))) → HasRead text done rows.old
        → IfOk result
        (λ o. MatchOption o (text_rows text ≡ done)
        (λ row. HasRead text (done ++ fields_of row ∷ []) rows.new)) }
    ensures fewer { IfOk result (λ o. OnSome o (owned_rows_left rows.new < owned_rows_left rows.old)) }
{
    match rows.next() {
        None => Ok(None),
        Some(Ok(row)) => Ok(Some(row)),
        Some(Err(_)) => Err(AllocError),
    }
}
