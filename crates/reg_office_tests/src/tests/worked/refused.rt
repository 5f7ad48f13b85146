//! The lines, each by itself, and a request at their end, where memory may be refused: they are answered
//! by their own answer, also where they are sent again. `tools/refuse-allocations` refuses each allocation
//! of these calls in turn; before and after each call the clock is read, as a sign to it.
use crate::tests::exercise::{CLERK, Exercise, over_both};
use crate::tests::facts::ensure;
use crate::tests::transcript::{answered, sent};
use crate::tests::worked::lines::answer_to;
use crate::tests::worked::rows::ROWS;
use reg_keeper::keeper::Keeper;
use reg_office::Office;
use std::test::Fail;

const STORAGE: &str = "503 {\"error\":\"storage\"}";

const SUBMISSION: &str =
    r#"1700000000 alice-token-00001 PUT /requests/w-1 {"contact":"c","kind":"code","label":"W","registry":"flags","value":80}"#;

const PENDING: &str =
    r#"201 {"ask":{"contact":"c","kind":"code","label":"W","registry":"flags","value":80},"reference":"w-1","state":"pending"}"#;

/// These lines, whose answers are these, and then the submission over HTTP.
#[derive(Clone, Copy)]
struct Refused<'a> {
    lines: &'a str,
    wanted: &'a str,
}

impl Exercise for Refused<'_> {
    fn done<K: Keeper + Drop>(self, rt: &HostRuntime, keeper: K) -> Result<String, Fail> {
        let mut office = Office::new(rt.alloc(), keeper);
        office.found(CLERK)?;
        for (line, wanted) in self.lines.lines().zip(self.wanted.lines()) {
            assert_own(rt, &mut office, line, wanted, false)?;
        }
        assert_own(rt, &mut office, SUBMISSION, PENDING, true)?;
        Ok(String::new(rt.alloc()))
    }
}

// A line is answered by its own answer; or else memory was refused, and it is when it is sent again. Where there
// was no answer before, it may have been carried out, and is answered then by 200 in place of 201.
fn assert_own<K: Keeper>(
    rt: &HostRuntime,
    office: &mut Office<K>,
    line: &str,
    wanted: &str,
    is_over_http: bool,
) -> Result<(), Fail> {
    let first = answer_to(rt, office, line, is_over_http)?;
    if let Some(answer) = &first {
        if answer.as_str() == wanted {
            return Ok(());
        }
        ensure(answer.as_str() == STORAGE, line)?;
    }
    let again = answer_to(rt, office, line, is_over_http)?;
    let again = again.ok_or("an answer to a line that is sent again")?;
    let is_done = first.is_none()
        && wanted.starts_with("201 ")
        && again.as_str().strip_prefix("200 ") == wanted.strip_prefix("201 ");
    ensure(is_done || again.as_str() == wanted, line)
}

#[test]
fn rows_where_memory_is_refused(rt: HostRuntime) -> Result<(), Fail> {
    let lines = sent(rt.alloc(), &[ROWS])?;
    let wanted = answered(rt.alloc(), &[ROWS])?;
    let refused = Refused {
        lines: lines.as_str(),
        wanted: wanted.as_str(),
    };
    let _ = over_both(&rt, refused)?;
    Ok(())
}
