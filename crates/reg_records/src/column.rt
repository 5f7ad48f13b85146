//! Columns of rows: what a column holds, where it has its form, and what is written in it.
ghost use Rattle.std.specs.Prelude.{◌≡◌, ◌<◌, ◌^◌, ◌-◌, IfOk, option_map};
ghost use Rattle.sqlite.specs.Order.{column};
ghost use Rattle.sqlite.specs.Value.{owned};
ghost use Rattle.sqlite.specs.declared.types.Value.TheVariants.{Text as TextValue};
ghost use Rattle.reg_ranges.specs.Texts.{is_text};
ghost use Rattle.reg_records.specs.Columns.{int_in, whole_in, number_in, is_number, flag_in, text_in, read_in, formed_in, is_null as null, or_null_in, whole_value, flag_value};
ghost use Rattle.reg_records.specs.Requests.Reading.{are_null};

use crate::word::Worded;
use reg_core::text::{Form, Text, Word};
use sqlite::Row;
use sqlite::types::ValueRef;
use std::alloc::{AllocError, Global};
use std::ops::Range;

/// The whole number in a column.
pub fn int(row: &Row, at: usize) -> Option<i64>
    ensures { result ≡ int_in (column row.now at) }
{
    match row.get_ref(at) {
        Ok(ValueRef::Int(n)) => Some(n),
        _ => None,
    }
}

/// The whole number in a column that is not negative.
pub fn whole(row: &Row, at: usize) -> Option<u64>
    ensures { result ≡ whole_in (column row.now at) }
{
    u64::try_from(int(row, at)?).ok()
}

/// The number of 32 bits in a column.
pub fn number(row: &Row, at: usize) -> Option<u32>
    ensures { result ≡ number_in is_number (column row.now at) }
{
    u32::try_from(whole(row, at)?).ok()
}

/// The answer in a column: 0 for no, 1 for yes.
pub fn flag(row: &Row, at: usize) -> Option<bool>
    ensures { result ≡ flag_in (column row.now at) }
{
    match whole(row, at)? {
        0 => Some(false),
        1 => Some(true),
        _ => None,
    }
}

/// The bytes of the text in a column.
pub fn text(row: &Row, at: usize) -> Option<&[u8]>
    ensures { option_map (λ t. t.now) result ≡ text_in (column row.now at) }
{
    match row.get_ref(at) {
        Ok(ValueRef::Text(text)) => Some(text),
        _ => None,
    }
}

/// The value whose word is in a column.
pub fn word<W: Worded>(row: &Row, at: usize) -> Option<W>
    ensures { result ≡ read_in W.read_word (column row.now at) }
{
    W::read_word(text(row, at)?)
}

/// The name in a column.
pub fn name<F: Form<N>, const N: usize>(row: &Row, at: usize) -> Option<Word<F, N>>
    ensures { result ≡ formed_in F.fits (column row.now at) }
{
    Word::read(text(row, at)?)
}

/// The printable text in a column.
pub fn printable(alloc: Global, row: &Row, at: usize) -> Result<Option<Text>, AllocError>
    ensures { IfOk result (λ text. text ≡ formed_in is_text (column row.now at)) }
{
    match text(row, at) {
        Some(text) => Text::read(alloc, text),
        None => Ok(None),
    }
}

/// Whether a column is NULL.
pub fn is_null(row: &Row, at: usize) -> bool
    ensures { result ≡ null (column row.now at) }
{
    matches!(row.get_ref(at), Ok(ValueRef::Null) | Err(_))
}

/// Whether these columns are all NULL.
pub fn are_null(row: &Row, mut columns: Range<usize>) -> bool
    ensures { result ≡ are_null row.now columns.start (columns.end - columns.start) }
{
    columns.all(|at| is_null(row, at))
}

/// The whole number in a column that may be NULL, which is not negative.
pub fn whole_or_null(row: &Row, at: usize) -> Option<Option<u64>>
    ensures { result ≡ or_null_in whole_in (column row.now at) }
{
    if is_null(row, at) {
        return Some(None);
    }
    whole(row, at).map(Some)
}

/// The number of 32 bits in a column that may be NULL.
pub fn number_or_null(row: &Row, at: usize) -> Option<Option<u32>>
    ensures { result ≡ or_null_in (number_in is_number) (column row.now at) }
{
    if is_null(row, at) {
        return Some(None);
    }
    number(row, at).map(Some)
}

/// The value whose word is in a column that may be NULL.
pub fn word_or_null<W: Worded>(row: &Row, at: usize) -> Option<Option<W>>
    ensures { result ≡ or_null_in (read_in W.read_word) (column row.now at) }
{
    if is_null(row, at) {
        return Some(None);
    }
    word(row, at).map(Some)
}

/// The name in a column that may be NULL.
pub fn name_or_null<F: Form<N>, const N: usize>(row: &Row, at: usize) -> Option<Option<Word<F, N>>>
    ensures { result ≡ or_null_in (formed_in F.fits) (column row.now at) }
{
    if is_null(row, at) {
        return Some(None);
    }
    name(row, at).map(Some)
}

/// The printable text in a column that may be NULL.
pub fn printable_or_null(
    alloc: Global,
    row: &Row,
    at: usize,
) -> Result<Option<Option<Text>>, AllocError>
    ensures { IfOk result (λ text. text ≡ or_null_in (formed_in is_text) (column row.now at)) }
{
    if is_null(row, at) {
        return Ok(Some(None));
    }
    Ok(printable(alloc, row, at)?.map(Some))
}

/// What is written for a whole number of 63 bits.
pub fn whole_value(n: u64) -> ValueRef<'static>
    requires { n < 2 ^ 63 }
    ensures { owned result ≡ whole_value n }
{
    ValueRef::Int(n as i64)
}

/// What is written for a number of 32 bits.
pub fn number_value(n: u32) -> ValueRef<'static>
    ensures { owned result ≡ whole_value n }
{
    ValueRef::Int(i64::from(n))
}

/// What is written for an answer: 0 for no, 1 for yes.
pub fn flag_value(flag: bool) -> ValueRef<'static>
    ensures { owned result ≡ flag_value flag }
{
    ValueRef::Int(if flag { 1 } else { 0 })
}

/// What is written for a value that has a word.
pub fn word_value<W: Worded>(value: &W) -> ValueRef<'static>
    ensures { owned result ≡ TextValue (W.word_of value.now) }
{
    ValueRef::Text(value.written().as_bytes())
}

/// What is written for a name.
pub fn name_value<F: Form<N>, const N: usize>(name: &Word<F, N>) -> ValueRef<'_>
    ensures { owned result ≡ TextValue name.now }
{
    ValueRef::Text(name.as_str().as_bytes())
}

/// What is written for a printable text.
pub fn printable_value(text: &Text) -> ValueRef<'_>
    ensures { owned result ≡ TextValue text.now }
{
    ValueRef::Text(text.as_str().as_bytes())
}
