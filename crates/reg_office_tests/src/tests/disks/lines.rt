//! Disks that stop at each call of a line of a script. What is found then is the office before the
//! line or after it, and after it wherever the line was answered; and the line is sent again.
use crate::tests::disks::asking::{Row, STORAGE, rows};
use crate::tests::disks::left::{Image, NEVER, Stop, stops};
use crate::tests::disks::making::{answered, ask, calls_of_opening, founded, seen};
use crate::tests::disks::rows::ROWS;
use crate::tests::facts::ensure;
use std::alloc::Global;
use std::test::Fail;

/// A row, the files of the office before it, and what is seen of it before and after it where no disk stops.
#[derive(Clone, Copy)]
struct Case<'a> {
    row: &'a Row,
    image: &'a Image,
    before: &'a [u8],
    after: &'a [u8],
}

// The office in these files is the one before the line or after it, and after it where the line was answered. The
// line that is sent again is answered, as one that was carried out where it was answered before, and then the
// office is the one after it. Files that are as before the line need not be opened again: what is answered
// from there is known.
fn assert_resumed(
    alloc: Global,
    case: &Case<'_>,
    image: &Image,
    is_answered: bool,
    stop: Stop,
) -> Result<(), Fail> {
    if !is_answered && image == case.image {
        return Ok(());
    }
    let line = case.row.line.as_str();
    let found = seen(alloc, image)?;
    let is_before = !is_answered && found.as_slice() == case.before;
    let is_left = is_before || found.as_slice() == case.after;
    stop.ensure(is_left, "the office before the line, or after it", line)?;
    let (answer, left) = answered(alloc, image, line.as_bytes())?;
    let is_first = !is_answered && answer == case.row.answer;
    let is_again = is_first || case.row.is_repeated(answer.as_slice());
    stop.ensure(is_again, "the answer to a line that comes again", line)?;
    let found = seen(alloc, &left.written)?;
    let is_after = found.as_slice() == case.after;
    stop.ensure(is_after, "the office after the line", line)
}

// The line was answered by its own answer, or by that of a store that failed.
fn assert_stop(alloc: Global, case: &Case<'_>, stop: Stop) -> Result<(), Fail> {
    let line = case.row.line.as_str();
    let (answer, left) = ask(alloc, case.image, stop, line.as_bytes())?;
    let answer = answer.ok_or("an office that is opened")?;
    let is_answered = answer == case.row.answer;
    let is_known = is_answered || answer.as_slice() == STORAGE;
    stop.ensure(is_known, "the row's answer, or the store's", line)?;
    assert_resumed(alloc, case, &left.written, is_answered, stop)?;
    if left.synced != left.written {
        assert_resumed(alloc, case, &left.synced, is_answered, stop)?;
    }
    Ok(())
}

// The log's disk stops at each call of the line, and then the database's. A line that changes the
// office makes such calls.
fn assert_case(alloc: Global, case: &Case<'_>) -> Result<(), Fail> {
    let first = calls_of_opening(alloc, case.image)?;
    let (_, left) = ask(alloc, case.image, NEVER, case.row.line.as_bytes())?;
    let is_look = case.before == case.after;
    ensure(is_look || first.log < left.calls.log, "calls of a change")?;
    for stop in stops(alloc, first, left.calls)? {
        assert_stop(alloc, case, stop)?;
    }
    assert_stop(alloc, case, left.calls)
}

#[test]
fn each_line_of_an_office(rt: HostRuntime) -> Result<(), Fail> {
    let alloc = rt.alloc();
    let rows = rows(alloc, &[ROWS])?;
    ensure(rows.len() == 42, "the rows of the transcript")?;
    let mut image = founded(alloc, "", false)?;
    let mut before = seen(alloc, &image)?;
    for row in &rows {
        let (answer, left) = answered(alloc, &image, row.line.as_bytes())?;
        ensure(answer == row.answer, row.line.as_str())?;
        let after = seen(alloc, &left.written)?;
        let case = Case {
            row,
            image: &image,
            before: before.as_slice(),
            after: after.as_slice(),
        };
        assert_case(alloc, &case)?;
        image = left.written;
        before = after;
    }
    Ok(())
}
