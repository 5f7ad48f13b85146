//! Days against Python's `datetime`, and terms against worked cases. Statuses, evidence and policies are in
//! the transcripts of `reg_cli`.
use crate::tests::libraries::expecting::{expect, expect_at, expect_text};
use reg_early::day::{Day, day_of, day_text, year_after};
use reg_early::term::{RenewFault, SettleFault, Term};
use std::alloc::Global;
use std::process::Abort;
use std::test::Fail;

fn day(number: u32) -> Result<Day, Fail> {
    Ok(Day::from_days(number).ok_or("no day")?)
}

// Days by their numbers, and numbers that are none of a day.
const DAYS: &[(u32, &str)] = &[
    (0, "none"),
    (10956, "none"),
    (10957, "2000-01-01"),
    (19782, "2024-02-29"),
    (47541, "2100-03-01"),
    (2932896, "9999-12-31"),
    (2932897, "none"),
    (u32::MAX, "none"),
];

#[test]
fn days_end_where_the_calendar_does(rt: HostRuntime) -> Result<(), Fail> {
    for (number, text) in DAYS {
        match Day::from_days(*number) {
            Some(day) => {
                expect_at(&rt, day.days(), *number, u64::from(*number));
                expect_text(&rt, day_text(rt.alloc(), day)?.as_str(), text, "date");
            }
            None => expect_text(&rt, "none", text, "no date"),
        }
    }
    Ok(())
}

#[test]
fn moments_have_utc_days(rt: HostRuntime) {
    for (moment, number) in [
        (0, None),
        (946684799, None),
        (946684800, Some(10957)),
        (1700000000, Some(19675)),
        (1709164799, Some(19781)),
        (1709164800, Some(19782)),
        (1709251199, Some(19782)),
        (32503679999, Some(376199)),
        (32503680000, None),
        (u64::MAX, None),
    ] {
        let found = match day_of(moment) {
            Some(day) => Some(day.days()),
            None => None,
        };
        expect_at(&rt, found, number, moment);
    }
}

#[test]
fn years_after_known_days(rt: HostRuntime) -> Result<(), Fail> {
    for (number, after) in [
        (19416, 19781),
        (19417, 19783),
        (19781, 20147),
        (19782, 20147),
        (19783, 20148),
        (47481, 47846),
        (2932531, 2932896),
        (2932591, 2932896),
        (2932896, 2932896),
    ] {
        let found = year_after(day(number)?).days();
        expect_at(&rt, found, after, u64::from(number));
    }
    Ok(())
}

// FNV-1a.
fn hashed(hash: u64, text: &str) -> u64 {
    let mut hash = hash;
    for byte in text.as_bytes() {
        hash = (hash ^ u64::from(*byte)).wrapping_mul(0x100000001b3);
    }
    hash
}

fn hashes(alloc: Global, first: u32, last: u32) -> Result<(u64, u64), Fail> {
    let (mut texts, mut after) = (0xcbf29ce484222325, 0xcbf29ce484222325);
    for number in first..=last {
        let day = day(number)?;
        texts = hashed(texts, day_text(alloc, day)?.as_str());
        after = hashed(after, day_text(alloc, year_after(day))?.as_str());
    }
    Ok((texts, after))
}

// The texts of all days of some centuries, and of the days a year after them, as one hash each.
#[test]
fn centuries_are_those_of_another_calendar(rt: HostRuntime) -> Result<(), Fail> {
    for (first, last, texts, after) in [
        (10957, 47481, 0xf7cd5fa15af6ee76, 0xe71aace0a8b2f345),
        (47482, 84005, 0x5adec43e0720aef9, 0x23fd0eda01bfc458),
        (84006, 120529, 0x496ebaa3c8cd7269, 0xab9efe4312b8495e),
        (120530, 157419, 0x6e2afc935ceb097a, 0xfe63b364b6f96f6c),
        (2896373, 2932896, 0xfe6f5fee108dd5b5, 0xd512591cf5de7daa),
    ] {
        let found = hashes(rt.alloc(), first, last)?;
        expect_at(&rt, found, (texts, after), u64::from(first));
    }
    Ok(())
}

// A term that began on 2024-02-29.
fn term(expires: Option<u32>, renewed: bool) -> Result<Term, Fail> {
    let expires = match expires {
        Some(number) => Some(day(number)?),
        None => None,
    };
    Ok(Term {
        first: day(19782)?,
        expires,
        renewed,
        held: false,
    })
}

// What is held stays so when it is renewed, and is not held when it is settled.
fn expect_term(
    rt: &impl Abort,
    before: Term,
    approval: Day,
    iesg: bool,
    wanted: Result<Day, RenewFault>,
) {
    let renewed = match wanted {
        Ok(expiry) => Ok(Term {
            expires: Some(expiry),
            renewed: true,
            ..before
        }),
        Err(fault) => Err(fault),
    };
    let at = u64::from(approval.days());
    expect_at(rt, before.renew(approval, iesg), renewed, at);
    let settled = match before.expires {
        Some(_) => Ok(Term {
            expires: None,
            held: false,
            ..before
        }),
        None => Err(SettleFault::Permanent),
    };
    expect_at(rt, before.settle(), settled, at);
}

// Terms that end on a day, or never, and were renewed before or not, are renewed on another day up to a third
// one: by a minute, and without one unless they were renewed before.
#[test]
fn terms_are_renewed_and_settled(rt: HostRuntime) -> Result<(), Fail> {
    for (expires, renewed, approval, expiry) in [
        (Some(20147), false, 20146, Ok(20512)),
        (Some(20147), false, 20240, Ok(20605)),
        (Some(20512), true, 20240, Ok(20877)),
        (Some(20512), true, 20600, Ok(20965)),
        (None, false, 20240, Err(RenewFault::Permanent)),
        (None, true, 20240, Err(RenewFault::Permanent)),
    ] {
        let before = term(expires, renewed)?;
        let approval = day(approval)?;
        let by_minute = match expiry {
            Ok(number) => Ok(day(number)?),
            Err(fault) => Err(fault),
        };
        let alone = match by_minute {
            Ok(_) if renewed => Err(RenewFault::Renewed),
            other => other,
        };
        expect_term(&rt, before, approval, true, by_minute);
        expect_term(&rt, before, approval, false, alone);
        let held = before.with_hold(true);
        expect_term(&rt, held, approval, true, by_minute);
        expect_term(&rt, held, approval, false, alone);
    }
    let early = term(Some(20147), false)?;
    expect(&rt, Term::early(day(19782)?), early, "a year");
    let permanent = term(None, false)?;
    expect(&rt, Term::permanent(day(19782)?), permanent, "for ever");
    Ok(())
}
