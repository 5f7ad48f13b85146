//! Requests that are put into an office beneath its commands, and what commands make of them.
ghost use Rattle.std.specs.Prelude.{◌≡◌, true};
ghost use Rattle.reg_core.specs.WellKept.{has_request_form};
ghost use Rattle.reg_core.specs.World.{pending};

use crate::tests::exercise::{CLERK, Exercise};
use crate::tests::transcript::{answered, part, sent};
use crate::tests::worked::lines::{Lines, answers_of, assert_over_both};
use crate::tests::worked::rows::ROWS;
use reg_core::ask::{Ask, CodeAsk, Want};
use reg_core::change::Change;
use reg_core::text::{Account, Name, Ref, Text};
use reg_keeper::keeper::{Fault, Keeper};
use reg_office::Office;
use reg_ranges::evidence::Evidence;
use reg_ranges::formed::Formed;
use std::alloc::Global;
use std::test::Fail;

// What alice is answered of her request `a-1`, where there is also one of bob's, `r-9`, and there is no
// registry; and what the clerk is.
const STORED: &str = r#"
> 1700000000 alice-token-00001 GET /requests
< 200 [{"ask":{"contact":"c","kind":"code","label":"L","registry":"flag","value":5},"reference":"a-1","state":"pending"}]
> 1700000000 alice-token-00001 PUT /requests/a-1 {"contact":"c","kind":"code","label":"L","registry":"flag","value":5}
< 200 {"ask":{"contact":"c","kind":"code","label":"L","registry":"flag","value":5},"reference":"a-1","state":"pending"}
> 1700000000 alice-token-00001 PUT /requests/a-1 {"contact":"c","kind":"code","label":"L","registry":"flag","value":6}
< 409 {"error":"ref"}
> 1700000000 alice-token-00001 PUT /requests/a-2 {"contact":"c","kind":"code","label":"L","registry":"flag","value":5}
< 404 {"error":"registry"}
> 1700000000 alice-token-00001 GET /requests/r-9
< 404 {"error":"request"}
> 1700000000 alice-token-00001 GET /requests/r-8
< 404 {"error":"request"}
> 1700000000 clerk-token-00001 PUT /desk/pool/001A2B
< 200 {"pool":"001A2B"}
> 1700000000 - GET /pool
< 200 ["001A2B"]
"#;

/// Lines of an office, two requests that are put into it, and lines of the office that is founded again
/// over the same keeper.
#[derive(Clone, Copy)]
struct Stored<'a> {
    first: Lines<'a>,
    last: Lines<'a>,
}

impl Exercise for Stored<'_> {
    fn done<K: Keeper + Drop>(self, rt: &HostRuntime, keeper: K) -> Result<String, Fail> {
        let mut office = Office::new(rt.alloc(), keeper);
        office.found(CLERK)?;
        answers_of(rt, &mut office, self.first)?;
        let mut keeper = office.into_keeper();
        put(rt.alloc(), &mut keeper, b"alice", b"a-1")?;
        put(rt.alloc(), &mut keeper, b"bob", b"r-9")?;
        let mut office = Office::new(rt.alloc(), keeper);
        office.found(CLERK)?;
        answers_of(rt, &mut office, self.last)
    }
}

// Puts a request of an account for the value 5 of `flag`.
fn put<K: Keeper>(
    alloc: Global,
    keeper: &mut K,
    account: &[u8],
    reference: &[u8],
) -> Result<(), Fail> {
    let account = Account::read(account).ok_or("an account")?;
    let reference = Ref::read(reference).ok_or("a reference")?;
    let ask = Ask::Code(CodeAsk {
        registry: Name::read(b"flag").ok_or("a name")?,
        want: Want::Value(5),
        label: Text::read(alloc, b"L")?.ok_or("a label")?,
        evidence: Evidence {
            contact: Text::read(alloc, b"c")?,
            spec: None,
            rfc: None,
            minute: None,
        },
    });
    Ok(submit(keeper, account, reference, ask)?)
}

// Adds a pending request, if there is none under its reference.
fn submit<K: Keeper>(
    keeper: &mut K,
    account: Account,
    reference: Ref,
    ask: Ask,
) -> Result<(), Fault> {
    request_formed(&account, &reference, &ask);
    match keeper.own_one(&account, &reference)? {
        None => keeper.apply(Change::Submit(account, reference, ask)),
        Some(_) => Err(Fault::Store),
    }
}

// Does nothing: what it ensures is known by the types.
fn request_formed(account: &Account, reference: &Ref, ask: &Ask)
    ensures { has_request_form (account.now, reference.now) (pending ask.now) ≡ true }
{
    account.formed();
    reference.formed();
    ask.formed();
}

#[test]
fn requests_beneath_commands(rt: HostRuntime) -> Result<(), Fail> {
    let first = sent(rt.alloc(), &[part(ROWS, "grants")?])?;
    let lines = sent(rt.alloc(), &[STORED])?;
    let wanted = answered(rt.alloc(), &[STORED])?;
    let first = Lines {
        lines: first.as_str(),
        is_over_http: false,
    };
    let last = Lines {
        lines: lines.as_str(),
        is_over_http: false,
    };
    let stored = Stored { first, last };
    assert_over_both(&rt, stored, lines.as_str(), wanted.as_str())
}
