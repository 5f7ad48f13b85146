//! Offices that are made and asked on disks.
use crate::tests::disks::asking::{LOOKS, rows};
use crate::tests::disks::left::{Image, Left, NEVER, Stop};
use crate::tests::disks::rows::ROWS;
use crate::tests::disks::sessions::{Done, Task, session_on};
use crate::tests::exercise::CLERK;
use reg_opening::kind::StoreKind;
use std::alloc::Global;
use std::test::Fail;

/// More pages than a store has here: no page is read twice.
pub const ALL_PAGES: usize = 2_000;

/// No file was written yet.
pub fn nothing(alloc: Global) -> Image {
    Image {
        log: Vec::new(alloc),
        db: Vec::new(alloc),
    }
}

/// These lines are asked of an office, which is founded where there is none.
pub fn asking(lines: &[u8]) -> Task<'_> {
    Task::Ask {
        fresh: true,
        token: None,
        lines,
    }
}

/// What the office in these files answers on disks that stop, if it is opened, and what is left of it. It ends
/// without being closed.
pub fn ask(
    alloc: Global,
    image: &Image,
    stop: Stop,
    lines: &[u8],
) -> Result<(Option<Vec<u8>>, Left), Fail> {
    let (done, left) = session_on(alloc, image, stop, ALL_PAGES, asking(lines), false)?;
    match done {
        Done::Answered(answers) => Ok((Some(answers), left)),
        Done::Unopened => Ok((None, left)),
        _ => Err("lines that are run to their end".into()),
    }
}

/// What the office in these files answers, and what is left of it.
pub fn answered(alloc: Global, image: &Image, lines: &[u8]) -> Result<(Vec<u8>, Left), Fail> {
    let (answers, left) = ask(alloc, image, NEVER, lines)?;
    Ok((answers.ok_or("an office")?, left))
}

/// The calls that an opening takes, if the office in these files is opened.
pub fn calls_of_opening(alloc: Global, image: &Image) -> Result<Stop, Fail> {
    let (_, left) = answered(alloc, image, b"")?;
    Ok(left.calls)
}

/// What is seen of the office in these files.
pub fn seen(alloc: Global, image: &Image) -> Result<Vec<u8>, Fail> {
    let (seen, _) = answered(alloc, image, LOOKS.as_bytes())?;
    Ok(seen)
}

/// The files of an office that is founded, with a first clerk, and after these lines, once it is closed or ends
/// without that.
pub fn founded(alloc: Global, lines: &str, closes: bool) -> Result<Image, Fail> {
    let founding = Task::Ask {
        fresh: true,
        token: Some(CLERK),
        lines: lines.as_bytes(),
    };
    let (done, left) = session_on(alloc, &nothing(alloc), NEVER, ALL_PAGES, founding, closes)?;
    match done {
        Done::Answered(_) => Ok(left.written),
        _ => Err("an office that is founded".into()),
    }
}

/// The files of an office after the first so many rows of the transcript, with rows in every table after all.
pub fn prepared_by(alloc: Global, count: usize) -> Result<Image, Fail> {
    let rows = rows(alloc, &[ROWS])?;
    let mut lines = String::new(alloc);
    for row in rows.iter().take(count) {
        lines.push_str(row.line.as_str())?;
    }
    founded(alloc, lines.as_str(), true)
}

/// What the store in these files is after these statements, if it has tables, and the files then.
pub fn judged(
    alloc: Global,
    image: &Image,
    statements: &str,
) -> Result<(Option<StoreKind>, Image), Fail> {
    let task = Task::CarryOut(statements);
    let (done, left) = session_on(alloc, image, NEVER, ALL_PAGES, task, true)?;
    match done {
        Done::Judged(kind) => Ok((kind, left.written)),
        _ => Err("statements that are carried out".into()),
    }
}
