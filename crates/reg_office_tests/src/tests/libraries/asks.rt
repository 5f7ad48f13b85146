//! What asks would be given by the published rows, worked by hand.
use crate::tests::libraries::digits::block;
use crate::tests::libraries::expecting::{expect, expect_true};
use reg_blocks::pool::{Add, Pool};
use reg_core::ask::Ask;
use reg_core::command::{ApplicantCommand, Command};
use reg_core::entry::Entry;
use reg_core::refusal::Refusal;
use reg_core::request::Given;
use reg_core::text::{Account, Name, Text};
use reg_decisions::{Ground, check_ask};
use reg_early::day::Day;
use reg_early::term::Term;
use reg_parse::command::read_command;
use reg_parse::route::Routes;
use reg_ranges::evidence::Item;
use reg_ranges::range_file::read_ranges;
use reg_ranges::table::RangeTable;
use std::alloc::Global;
use std::process::Abort;
use std::test::Fail;

const RANGES: &[u8] =
    b"lo,hi,treatment,note\n0,63,standards-action,\n64,191,first-come-first-served,\n192,223,expert-review,\n224,239,experimental-use,\n240,254,private-use,\n255,255,reserved,\n";

// Asks in a registry without entries. Each line says whose ask it is, what it would be given or how it is
// refused, and the body that asks for it.
const NAMED: &str =
    r#"ana evidence {"contact":"c","kind":"code","label":"red","registry":"colours","value":5}
ana evidence {"contact":"c","kind":"code","label":"red","registry":"colours","value":63}
ana 64 {"contact":"c","kind":"code","label":"red","registry":"colours","value":64}
ana 191 {"contact":"c","kind":"code","label":"red","registry":"colours","value":191}
ana 192 {"contact":"c","kind":"code","label":"red","registry":"colours","value":192}
ana policy {"contact":"c","kind":"code","label":"red","registry":"colours","value":224}
ana policy {"contact":"c","kind":"code","label":"red","registry":"colours","value":254}
ana policy {"contact":"c","kind":"code","label":"red","registry":"colours","value":255}
ana range {"contact":"c","kind":"code","label":"red","registry":"colours","value":256}
ana 64 {"contact":"c","kind":"code","label":"red","least":"first-come-first-served","registry":"colours"}"#;

// Asks where 3, 64, 65, 67 and 192 have entries.
const LEAST: &str =
    r#"ana 66 {"contact":"c","kind":"code","label":"red","least":"first-come-first-served","registry":"colours"}
ana 193 {"contact":"c","kind":"code","label":"red","least":"expert-review","registry":"colours"}
ana policy {"contact":"c","kind":"code","label":"red","least":"private-use","registry":"colours"}
ana policy {"contact":"c","kind":"code","label":"red","least":"rfc-required","registry":"colours"}"#;

// An ask where all values that are served first come first have entries.
const EXHAUSTED: &str =
    r#"ana exhausted {"contact":"c","kind":"code","label":"red","least":"first-come-first-served","registry":"colours"}"#;

// Asks where 64 has an early entry of bob's.
const STANDS: &str =
    r#"ana taken {"contact":"c","kind":"code","label":"red","registry":"colours","value":64}
bob taken {"contact":"c","kind":"code","label":"red","registry":"colours","value":64}
ana entry {"contact":"c","kind":"permanent","registry":"colours","value":64}
bob 64 {"contact":"c","kind":"permanent","registry":"colours","value":64}"#;

// Asks by a pool of one prefix, of which 001A2B0 and 001A2B100 are given.
const BLOCKS: &str =
    r#"ana 001A2B101 {"address":"1 High Street","kind":"block","organization":"Ana and Sons","size":"MA-S"}
ana 001A2B2 {"address":"1 High Street","kind":"block","organization":"Ana and Sons","size":"MA-M"}
ana exhausted {"address":"1 High Street","kind":"block","organization":"Ana and Sons","size":"MA-L"}
ana registry {"contact":"c","kind":"code","label":"red","registry":"colours","value":64}"#;

// Asks by no registry.
const NOTHING: &str =
    r#"ana registry {"contact":"c","kind":"code","label":"red","registry":"colours","value":64}
ana exhausted {"address":"1 High Street","kind":"block","organization":"Ana and Sons","size":"MA-L"}"#;

// What a body asks for.
fn ask_of(alloc: Global, routes: &Routes, body: &str) -> Option<Ask> {
    match read_command(alloc, routes, b"PUT", b"/requests/a-1", body.as_bytes()) {
        Ok(Command::Applicant(ApplicantCommand::Submit(_, ask))) => Some(ask),
        _ => None,
    }
}

// What is given, by its digits, or how it is refused, by its word. Evidence lacks an RFC.
fn answer_of(rt: &impl Abort, wanted: &str) -> Result<Given, Refusal> {
    match wanted {
        "registry" => Err(Refusal::Registry),
        "range" => Err(Refusal::Range),
        "policy" => Err(Refusal::Policy),
        "evidence" => Err(Refusal::Evidence(Item::Rfc)),
        "taken" => Err(Refusal::Taken),
        "exhausted" => Err(Refusal::Exhausted),
        "entry" => Err(Refusal::Entry),
        digits if digits.len() < 6 => Ok(Given::Value(digits.parse().unwrap_or(0))),
        digits => Ok(Given::Block(block(rt, digits))),
    }
}

// What an ask would be given by these rows, which ascend.
fn expect_answer(
    rt: &(impl Abort + AllocGlobal),
    routes: &Routes,
    rows: &Ground<'_>,
    line: &str,
) -> Result<(), Fail> {
    let alloc = rt.alloc();
    let (letters, rest) = line.split_once(' ').ok_or("an account")?;
    let (wanted, body) = rest.split_once(' ').ok_or("an answer")?;
    let account = Account::read(letters.as_bytes()).ok_or("an account")?;
    let ask = ask_of(alloc, routes, body).ok_or("an ask")?;
    expect_true(rt, rows.ascends(), "in order");
    let answer = check_ask(&account, &ask, rows);
    expect(rt, answer, answer_of(rt, wanted), line);
    Ok(())
}

fn expect_answers(
    rt: &(impl Abort + AllocGlobal),
    rows: &Ground<'_>,
    lines: &str,
) -> Result<(), Fail> {
    let routes = Routes::new(rt.alloc())?;
    for line in lines.lines() {
        expect_answer(rt, &routes, rows, line)?;
    }
    Ok(())
}

// The rows of a registry with these ranges, an entry at the value asked for, and these values that have
// entries.
fn rows_of<'a>(
    table: Option<&'a RangeTable>,
    entry: Option<&'a Entry>,
    taken: &'a [u32],
) -> Ground<'a> {
    Ground::Code {
        table,
        entry,
        taken,
    }
}

#[test]
fn asks_about_values(rt: HostRuntime) -> Result<(), Fail> {
    let alloc = rt.alloc();
    let table = RangeTable::make(255, read_ranges(alloc, RANGES)?)?;
    let ranges = Some(&table);
    expect_answers(&rt, &rows_of(None, None, &[]), NOTHING)?;
    expect_answers(&rt, &rows_of(ranges, None, &[]), NAMED)?;
    let some = [3, 64, 65, 67, 192];
    expect_answers(&rt, &rows_of(ranges, None, some.as_slice()), LEAST)?;
    let mut all = Vec::with_capacity(alloc, 128)?;
    for value in 64..192 {
        all.push(value)?;
    }
    expect_answers(&rt, &rows_of(ranges, None, all.as_slice()), EXHAUSTED)?;
    let entry = Entry {
        registry: Name::read(b"colours").ok_or("a name")?,
        value: 64,
        label: Text::read(alloc, b"green")?.ok_or("a text")?,
        assignee: Account::read(b"bob").ok_or("an account")?,
        term: Term::early(Day::from_days(19782).ok_or("a day")?),
    };
    let copy = entry.copy()?;
    expect_answers(&rt, &rows_of(ranges, Some(&copy), &[64]), STANDS)
}

#[test]
fn asks_for_blocks(rt: HostRuntime) -> Result<(), Fail> {
    let mut pool = Pool::new(rt.alloc());
    expect(&rt, pool.add(0x00_1A2B), Add::Added, "a prefix");
    let given = [block(&rt, "001A2B0"), block(&rt, "001A2B100")];
    let rows = Ground::Block {
        pool: &pool,
        blocks: &given,
    };
    expect_answers(&rt, &rows, BLOCKS)
}
