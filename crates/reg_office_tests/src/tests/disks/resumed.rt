//! Disks that stop at the same call of each line. An office that is opened again then, and asked the line
//! again where that met the stop, shows at the end what it shows where no disk stops.
use crate::tests::disks::asking::{Row, STORAGE, rows};
use crate::tests::disks::left::{Image, NEVER, Stop};
use crate::tests::disks::making::{answered, ask, calls_of_opening, founded, seen};
use crate::tests::facts::ensure;
use crate::tests::transcript::part;
use crate::tests::worked::rows::ROWS;
use std::alloc::Global;
use std::test::Fail;

// More calls than a line takes.
const MOST: u64 = 1_000;

// The files of an office after a row on disks that stop after so many of its calls, and whether it may have met
// the stop. What the stop leaves is what was synced, and a row that was not answered is sent again there.
fn after(alloc: Global, image: &Image, row: &Row, calls: Stop) -> Result<(bool, Image), Fail> {
    let line = row.line.as_str();
    let stop = calls.behind(calls_of_opening(alloc, image)?);
    let (answer, left) = ask(alloc, image, stop, line.as_bytes())?;
    let answer = answer.ok_or("an office that is opened")?;
    let is_met = left.calls.log >= stop.log || left.calls.db >= stop.db;
    if answer == row.answer {
        return Ok((is_met, if is_met { left.synced } else { left.written }));
    }
    let is_told = answer.as_slice() == STORAGE;
    stop.ensure(is_told, "the store's answer", line)?;
    let (answer, left) = answered(alloc, &left.synced, line.as_bytes())?;
    let is_own = answer == row.answer || row.is_repeated(answer.as_slice());
    stop.ensure(
        is_own,
        "the row's answer, or that of one that was done",
        line,
    )?;
    Ok((true, left.written))
}

// What is seen after all rows, each on disks that stop after so many of its calls, and whether one may have met
// the stop.
fn seen_after(alloc: Global, rows: &[Row], calls: Stop) -> Result<(bool, Vec<u8>), Fail> {
    let mut image = founded(alloc, "", false)?;
    let mut is_met = false;
    for row in rows {
        let (met, next) = after(alloc, &image, row, calls)?;
        is_met = is_met || met;
        image = next;
    }
    Ok((is_met, seen(alloc, &image)?))
}

// From these calls on, one more each time, up to those at which no row meets a stop.
fn assert_resumed(alloc: Global, first: Stop, rows: &[Row], wanted: &[u8]) -> Result<(), Fail> {
    for more in 0..MOST {
        let stop = first.behind(Stop {
            log: more,
            db: more,
        });
        let (is_met, seen) = seen_after(alloc, rows, stop)?;
        let is_same = seen.as_slice() == wanted;
        stop.ensure(is_same, "the office of a run without a stop", "")?;
        if !is_met {
            return Ok(());
        }
    }
    Err("rows that meet no stop".into())
}

// The rows of grants, of a registry, and of two requests for one value of it, on disks of which the log's stops, and
// then the database's.
#[test]
fn of_both_disks(rt: HostRuntime) -> Result<(), Fail> {
    let alloc = rt.alloc();
    let grants = part(ROWS, "grants")?;
    let registries = part(ROWS, "registries")?;
    let approvals = part(ROWS, "approvals")?;
    let rows = rows(alloc, &[grants, registries, approvals])?;
    ensure(rows.len() == 36, "the rows of these parts")?;
    let (_, wanted) = seen_after(alloc, rows.as_slice(), NEVER)?;
    let of_log = Stop { log: 0, ..NEVER };
    assert_resumed(alloc, of_log, rows.as_slice(), wanted.as_slice())?;
    let of_database = Stop { db: 0, ..NEVER };
    assert_resumed(alloc, of_database, rows.as_slice(), wanted.as_slice())
}
