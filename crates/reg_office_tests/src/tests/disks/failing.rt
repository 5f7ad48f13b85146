//! A store that fails: of an office that is open, a line or a job that needs it is told so, at whichever of its
//! calls the disk stops. One page is kept in memory, so that nearly each is read from the disk.
use crate::tests::disks::asking::{LOOKS, STORAGE};
use crate::tests::disks::left::{Image, NEVER, Stop, stops};
use crate::tests::disks::making::{asking, prepared_by};
use crate::tests::disks::sessions::{Done, Task, session_on};
use crate::tests::facts::ensure;
use std::alloc::Global;
use std::test::Fail;

// How many rows of the transcript leave an agent's token.
const ROWS_BEFORE_REVOCATIONS: usize = 35;

// Lines that change an office, or find that nothing is to be changed, and a listing.
const CHANGES: &str = "\
1700000000 clerk-token-00001 PUT /desk/registries/f/9 lo,hi,treatment,note\t0,9,reserved,y  z\t
1700000000 clerk-token-00001 PUT /desk/approve/alice/a-1
1700000000 clerk-token-00001 PUT /desk/holds/flags/5 {\"held\":true}
1700000000 clerk-token-00001 PUT /desk/tokens {\"account\":\"eve\",\"kind\":\"applicant\",\"token\":\"eve-token-00000001\",\"until\":1800000000}
1700000000 alice-token-00001 PUT /agents/bob {\"reads\":true}
1700000000 - GET /listings/registries/flags
";

// What is answered to a line on disks that stop, and the calls that there were.
fn answer_to(
    alloc: Global,
    image: &Image,
    stop: Stop,
    line: &str,
) -> Result<(Vec<u8>, Stop), Fail> {
    let (done, left) = session_on(alloc, image, stop, 1, asking(line.as_bytes()), false)?;
    match done {
        Done::Answered(answer) => Ok((answer, left.calls)),
        _ => Err(line.into()),
    }
}

// Where the disk stops at a call of the line, it is answered `503`, or by its own answer where it does not need
// that call; at the first call it needs it.
fn assert_fails(alloc: Global, image: &Image, first: Stop, line: &str) -> Result<(), Fail> {
    let (own, last) = answer_to(alloc, image, NEVER, line)?;
    ensure(first.db < last.db, line)?;
    for stop in stops(alloc, first, last)? {
        let (answer, _) = answer_to(alloc, image, stop, line)?;
        let is_told = answer.as_slice() == STORAGE;
        stop.ensure(is_told || answer == own, "an answer", line)?;
        stop.ensure(is_told || stop.db != first.db, "a fault", line)?;
    }
    Ok(())
}

#[test]
fn lines_over_a_store_that_fails(rt: HostRuntime) -> Result<(), Fail> {
    let alloc = rt.alloc();
    let image = prepared_by(alloc, ROWS_BEFORE_REVOCATIONS)?;
    let (_, first) = answer_to(alloc, &image, NEVER, "")?;
    let mut lines = String::from_str(alloc, LOOKS)?;
    lines.push_str(CHANGES)?;
    for line in lines.as_str().lines() {
        assert_fails(alloc, &image, first, line)?;
    }
    Ok(())
}

#[test]
fn jobs_over_a_store_that_fails(rt: HostRuntime) -> Result<(), Fail> {
    let alloc = rt.alloc();
    let image = prepared_by(alloc, ROWS_BEFORE_REVOCATIONS)?;
    let (_, first) = answer_to(alloc, &image, NEVER, "")?;
    for task in [
        Task::ListBlocks,
        Task::ListTokens,
        Task::Count,
        Task::Revoke,
    ] {
        let (done, _) = session_on(alloc, &image, NEVER, 1, task, false)?;
        ensure(!matches!(done, Done::FaultOfStore), "no fault")?;
        let (done, _) = session_on(alloc, &image, first, 1, task, false)?;
        ensure(matches!(done, Done::FaultOfStore), "a fault of the store")?;
    }
    Ok(())
}
