//! Requests that a fixed sequence of numbers draws, and asks in a wide registry, are answered alike by
//! scripts and over HTTP, over lists and over tables in memory.
use crate::tests::exercise::over_both;
use crate::tests::facts::ensure;
use crate::tests::transcript::{part, sent};
use crate::tests::worked::generated::requests;
use crate::tests::worked::lines::{Lines, assert_answers, assert_over_both};
use crate::tests::worked::rows::ROWS;
use crate::tests::worked::wide::wide;
use std::test::Fail;

// The callers and a registry, the requests that are drawn, and those in the wide registry.
#[test]
fn by_scripts_and_over_http(rt: HostRuntime) -> Result<(), Fail> {
    let alloc = rt.alloc();
    let mut lines = sent(alloc, &[part(ROWS, "grants")?, part(ROWS, "registries")?])?;
    lines.push_str(requests(alloc)?.as_str())?;
    lines.push_str(wide(alloc)?.as_str())?;
    let mut asked = Lines {
        lines: lines.as_str(),
        is_over_http: false,
    };
    let (lists, tables) = over_both(&rt, asked)?;
    let wanted = lists.as_str();
    ensure(!wanted.contains("{\"error\":\"storage\"}"), "no storage")?;
    ensure(
        wanted.lines().count() == asked.lines.lines().count(),
        "answers",
    )?;
    assert_answers(asked.lines, tables.as_str(), wanted)?;
    asked.is_over_http = true;
    assert_over_both(&rt, asked, asked.lines, wanted)
}
