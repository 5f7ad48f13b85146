//! Disks that stop at each call of an opening. A founding leaves all tables or none; the opening of an office that
//! an older program left, the older version or the newest; and one of the newest does not open. Each leaves
//! the same office.
use crate::tests::disks::asking::LOOKS;
use crate::tests::disks::left::{AT_ONCE, Image, Stop, stops};
use crate::tests::disks::making::{
    answered, ask, calls_of_opening, judged, nothing, prepared_by, seen,
};
use crate::tests::disks::rows::{OF_THE_FIRST, OF_THE_SECOND, OF_THE_THIRD};
use crate::tests::facts::ensure;
use reg_opening::kind::StoreKind;
use reg_tables::version::{NEWEST, Version};
use std::alloc::Global;
use std::test::Fail;

/// Files, what they are to an office that opens them, and what is seen of the office that is opened.
#[derive(Clone, Copy)]
struct Case<'a> {
    image: &'a Image,
    kind: Option<StoreKind>,
    seen: &'a [u8],
}

// These files are what they were or an office of the newest version, of the newest where it was opened, and the
// same office.
fn assert_left(
    alloc: Global,
    case: &Case<'_>,
    image: &Image,
    is_opened: bool,
    stop: Stop,
) -> Result<(), Fail> {
    let (kind, _) = judged(alloc, image, "")?;
    let is_older = !is_opened && kind == case.kind;
    let is_one = is_older || kind == Some(StoreKind::Ours(NEWEST));
    stop.ensure(is_one, "what was there, or the newest version", "")?;
    let seen = seen(alloc, image)?;
    stop.ensure(seen.as_slice() == case.seen, "the same office", "")
}

// Whether the office is opened on disks that stop.
fn is_opened(alloc: Global, case: &Case<'_>, stop: Stop) -> Result<bool, Fail> {
    let (answers, left) = ask(alloc, case.image, stop, b"")?;
    let opened = answers.is_some();
    assert_left(alloc, case, &left.written, opened, stop)?;
    if left.synced != left.written {
        assert_left(alloc, case, &left.synced, opened, stop)?;
    }
    Ok(opened)
}

// The log's disk stops at each call of the opening, and then the database's, and at last none. An office of the
// newest version is not opened where a call lacks: so the calls of a line begin after those.
fn assert_stops(alloc: Global, case: &Case<'_>) -> Result<(), Fail> {
    let is_newest = case.kind == Some(StoreKind::Ours(NEWEST));
    let last = calls_of_opening(alloc, case.image)?;
    for stop in stops(alloc, AT_ONCE, last)? {
        let opened = is_opened(alloc, case, stop)?;
        stop.ensure(!is_newest || !opened, "no opening", "")?;
    }
    ensure(is_opened(alloc, case, last)?, "an office that is opened")
}

#[test]
fn of_a_founding(rt: HostRuntime) -> Result<(), Fail> {
    let alloc = rt.alloc();
    let image = nothing(alloc);
    let (kind, _) = judged(alloc, &image, "")?;
    ensure(kind.is_none(), "nothing in empty files")?;
    let (seen, left) = answered(alloc, &image, LOOKS.as_bytes())?;
    let (made, _) = judged(alloc, &left.written, "")?;
    ensure(
        made == Some(StoreKind::Ours(NEWEST)),
        "an office that is made",
    )?;
    let case = Case {
        image: &image,
        kind,
        seen: seen.as_slice(),
    };
    assert_stops(alloc, &case)
}

#[test]
fn of_the_newest_version(rt: HostRuntime) -> Result<(), Fail> {
    let alloc = rt.alloc();
    let image = prepared_by(alloc, usize::MAX)?;
    let seen = seen(alloc, &image)?;
    let case = Case {
        image: &image,
        kind: Some(StoreKind::Ours(NEWEST)),
        seen: seen.as_slice(),
    };
    assert_stops(alloc, &case)
}

const TO_THE_FIRST: &str = "\
DROP TABLE journal
DROP TABLE agents
DROP TABLE minutes
DROP TABLE holds
UPDATE office SET version = 1
";

const TO_THE_SECOND: &str = "\
DROP TABLE journal
DROP TABLE agents
UPDATE office SET version = 2
";

const TO_THE_THIRD: &str = "\
DROP TABLE journal
UPDATE office SET version = 3
";

// The opening of an older version, as statements leave it of one of the newest, after so many lines of the
// transcript. An older program records no acts.
fn assert_migrated(
    alloc: Global,
    version: Version,
    statements: &str,
    lines: usize,
) -> Result<(), Fail> {
    let prepared = prepared_by(alloc, lines)?;
    let (kind, newest) = judged(alloc, &prepared, "DELETE FROM journal\n")?;
    ensure(kind == Some(StoreKind::Ours(NEWEST)), "no acts")?;
    let seen = seen(alloc, &newest)?;
    let (kind, image) = judged(alloc, &newest, statements)?;
    ensure(kind == Some(StoreKind::Ours(version)), "an older office")?;
    let case = Case {
        image: &image,
        kind,
        seen: seen.as_slice(),
    };
    let (_, left) = answered(alloc, &image, b"")?;
    let (_, closed) = judged(alloc, &left.written, "")?;
    let whole = calls_of_opening(alloc, &closed)?;
    ensure(whole.log < left.calls.log, "calls of a migration")?;
    assert_stops(alloc, &case)
}

#[test]
fn of_older_versions(rt: HostRuntime) -> Result<(), Fail> {
    let alloc = rt.alloc();
    assert_migrated(alloc, Version::First, TO_THE_FIRST, OF_THE_FIRST)?;
    assert_migrated(alloc, Version::Second, TO_THE_SECOND, OF_THE_SECOND)?;
    assert_migrated(alloc, Version::Third, TO_THE_THIRD, OF_THE_THIRD)
}
