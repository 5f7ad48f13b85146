//! The lines as scripts, and as requests over HTTP at their moments.
use crate::tests::exercise::{CLERK, Exercise, over_both};
use crate::tests::facts::ensure;
use crate::tests::transcript::{answered, part, sent};
use crate::tests::worked::after::AFTER;
use crate::tests::worked::floods::FLOODS;
use crate::tests::worked::messages::{line_of, request_of};
use crate::tests::worked::rows::ROWS;
use reg_keeper::keeper::Keeper;
use reg_office::Office;
use reg_wire::script::run;
use reg_wire::serving::serve_one;
use reg_wire::wire_fault::WireFault;
use std::str;
use std::test::Fail;
use std::time::Clock;

// Room for an answer of the rows, so that no writer needs memory.
const ROOM: usize = 8_192;

/// Lines of an office from its founding on, each sent as a script of its own, or as a request.
#[derive(Clone, Copy)]
pub struct Lines<'a> {
    pub lines: &'a str,
    pub is_over_http: bool,
}

impl Exercise for Lines<'_> {
    fn done<K: Keeper + Drop>(self, rt: &HostRuntime, keeper: K) -> Result<String, Fail> {
        let mut office = Office::new(rt.alloc(), keeper);
        office.found(CLERK)?;
        answers_of(rt, &mut office, self)
    }
}

/// What an office answers to these lines, each with a line feed.
pub fn answers_of<K: Keeper>(
    rt: &HostRuntime,
    office: &mut Office<K>,
    asked: Lines<'_>,
) -> Result<String, Fail> {
    let mut answers = String::new(rt.alloc());
    for line in asked.lines.lines() {
        let answer = answer_to(rt, office, line, asked.is_over_http)?.ok_or("memory")?;
        answers.push_str(answer.as_str())?;
        answers.push('\n')?;
    }
    Ok(answers)
}

/// What an office answers to a line, as a script has it; nothing where there was no memory for that. The clock is
/// read before the line is sent and after it, as a sign to `tools/refuse-allocations`.
pub fn answer_to<K: Keeper>(
    rt: &HostRuntime,
    office: &mut Office<K>,
    line: &str,
    is_over_http: bool,
) -> Result<Option<String>, Fail> {
    let alloc = rt.alloc();
    let (moment, request) = if is_over_http {
        request_of(alloc, line)?
    } else {
        (0, line.as_bytes().to_vec(alloc)?)
    };
    let mut reader = request.as_slice();
    let mut output = Vec::with_capacity(alloc, ROOM)?;
    let _ = rt.since_1970();
    let done = if is_over_http {
        match serve_one(alloc, office, moment, &mut reader, &mut output) {
            Ok(_) => Ok(()),
            Err(fault) => Err(fault),
        }
    } else {
        run(alloc, office, &mut reader, &mut output)
    };
    let _ = rt.since_1970();
    if done == Err(WireFault::Memory) {
        ensure(output.is_empty(), line)?;
        return Ok(None);
    }
    ensure(done.is_ok(), line)?;
    if is_over_http {
        return Ok(Some(line_of(alloc, output.as_slice())?));
    }
    ensure(output.pop() == Some(b'\n'), line)?;
    Ok(Some(String::from_str(alloc, str::from_utf8(output.as_slice())?)?))
}

/// These lines are answered so, over lists and over tables in memory.
pub fn assert_over_both<E: Exercise + Copy>(
    rt: &HostRuntime,
    exercise: E,
    lines: &str,
    wanted: &str,
) -> Result<(), Fail> {
    let (lists, tables) = over_both(rt, exercise)?;
    assert_answers(lines, lists.as_str(), wanted)?;
    assert_answers(lines, tables.as_str(), wanted)
}

/// Each of these lines is answered so.
pub fn assert_answers(lines: &str, answers: &str, wanted: &str) -> Result<(), Fail> {
    let mut wanted = wanted.lines();
    let mut answers = answers.lines();
    for line in lines.lines() {
        ensure(answers.next() == wanted.next(), line)?;
    }
    ensure(answers.next().is_none(), "no answer more")
}

// What asks nothing over HTTP: a line without the form of one, and its answer.
const NO_LINE: &str = "hello\n";

const NO_LINE_ANSWER: &str = "400 {\"error\":\"line\"}\n";

// The lines of these texts are answered as the texts say.
fn assert_texts(rt: &HostRuntime, texts: &[&str], is_over_http: bool) -> Result<(), Fail> {
    let alloc = rt.alloc();
    let mut lines = sent(alloc, texts)?;
    let mut wanted = answered(alloc, texts)?;
    if is_over_http {
        lines = lines.as_str().replace(alloc, NO_LINE, "")?;
        wanted = wanted.as_str().replace(alloc, NO_LINE_ANSWER, "")?;
    }
    let lines = lines.as_str();
    let asked = Lines {
        lines,
        is_over_http,
    };
    assert_over_both(rt, asked, lines, wanted.as_str())
}

#[test]
fn the_rows_and_each_of_their_ends(rt: HostRuntime) -> Result<(), Fail> {
    for end in AFTER.split("\n== ") {
        assert_texts(&rt, &[ROWS, end], false)?;
        assert_texts(&rt, &[ROWS, end], true)?;
    }
    Ok(())
}

// Her lines, in an office with its callers and its registry.
#[test]
fn an_applicant_beside_others(rt: HostRuntime) -> Result<(), Fail> {
    let grants = part(ROWS, "grants")?;
    let registries = part(ROWS, "registries")?;
    let alone = part(FLOODS, "alone")?;
    let flooded = part(FLOODS, "flooded")?;
    let reviewed = part(FLOODS, "reviewed")?;
    assert_texts(&rt, &[grants, registries, alone], false)?;
    assert_texts(&rt, &[grants, registries, flooded], false)?;
    assert_texts(&rt, &[grants, registries, reviewed, alone], false)
}
