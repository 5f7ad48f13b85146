//! Acts with their numbers, as rows of the table `journal`.
ghost use Rattle.std.specs.Prelude.{◌≡◌, true};
ghost use Rattle.std.specs.Ordering.{nat_cmp};
ghost use Rattle.sqlite.specs.Values.{bound};
ghost use Rattle.reg_records.specs.Acts.{act_in, act_values, actor_in, actor_values, is_stamp, moment_at, moment_in, moment_values, stamp_in};

mod deeds;

use crate::acts::deeds::{deed_formed, deed_in, deed_values};
use crate::column::{name_or_null, name_value, number, number_value, whole_or_null, whole_value};
use crate::record::{Keyed, Record};
use reg_core::journal::{Act, Actor, Stamp};
use reg_ranges::formed::Formed;
use sqlite::Row;
use sqlite::types::ValueRef;
use std::alloc::{AllocError, Global};
use std::cmp::Ordering;

// The columns, in the order of the table.
const NUMBER: usize = 0;

const DAY: usize = 1;

const SECOND: usize = 2;

const ACTOR: usize = 3;

const TOKEN: usize = 4;

const KIND: usize = 5;

const ACCOUNT: usize = 6;

const REFERENCE: usize = 7;

const OTHER: usize = 8;

const VERDICT: usize = 9;

const REGISTRY: usize = 10;

const VALUE: usize = 11;

const SIZE: usize = 12;

// How many there are.
const COUNT: usize = 13;

// The seconds of a day.
const DAY_SECONDS: u64 = 86400;

/// An act with its number in the file. Which number it is is not looked at.
#[derive(Clone, Copy)]
pub struct NumberedAct {
    pub number: u32,
    pub act: Act,
}

impl Record for NumberedAct {
    ghost of = { act_in };

    fn read(_: Global, row: &Row) -> Result<Option<Self>, AllocError> {
        Ok(act_in(row))
    }
}

impl Keyed for NumberedAct {
    ghost order = { λ a b. nat_cmp a.number b.number };

    fn compare(&self, other: &Self) -> Ordering {
        self.number.cmp(&other.number)
    }
}

impl Formed for NumberedAct {
    ghost use Rattle.reg_records.specs.Acts.{is_numbered_act};

    ghost has_form = { is_numbered_act };

    #[tactic(auto, using(std::proofs::lemmas::Bool::Decides::nat_tests))]
    fn formed(&self) {
        let _number = self.number;
        stamp_formed(&self.act.stamp);
        deed_formed(&self.act.deed);
    }
}

impl NumberedAct {
    /// The row that is written: number, day, second, actor, token, kind, account, reference, other,
    /// verdict, registry, value, size.
    pub fn values(&self) -> [ValueRef<'_>; 13]
        ensures { bound result ≡ act_values self.now }
    {
        let [day, second] = moment_values(self.act.stamp.moment);
        let [actor, token] = actor_values(&self.act.stamp.by);
        let [
            kind,
            account,
            reference,
            other,
            verdict,
            registry,
            value,
            size,
        ] = deed_values(&self.act.deed);
        [
            number_value(self.number),
            day,
            second,
            actor,
            token,
            kind,
            account,
            reference,
            other,
            verdict,
            registry,
            value,
            size,
        ]
    }
}

#[tactic(auto, unfolding(crate::specs::Acts::act_in))]
fn act_in(row: &Row) -> Option<NumberedAct>
    ensures { result ≡ act_in row.now }
{
    let number = number(row, NUMBER)?;
    let stamp = stamp_in(row)?;
    let deed = deed_in(row)?;
    Some(NumberedAct {
        number,
        act: Act { stamp, deed },
    })
}

#[tactic(auto, unfolding(crate::specs::Acts::stamp_in))]
fn stamp_in(row: &Row) -> Option<Stamp>
    ensures { result ≡ stamp_in row.now }
{
    let moment = moment_in(row)?;
    let by = actor_in(row)?;
    Some(Stamp { moment, by })
}

#[tactic(auto, unfolding(crate::specs::Acts::moment_in))]
fn moment_in(row: &Row) -> Option<Option<u64>>
    ensures { result ≡ moment_in row.now }
{
    let day = whole_or_null(row, DAY)?;
    let second = whole_or_null(row, SECOND)?;
    match (day, second) {
        (None, None) => Some(None),
        (Some(day), Some(second)) => moment_at(day, second).map(Some),
        _ => None,
    }
}

// The moment at this second of this day, if 64 bits count it.
#[tactic(auto, using(std::proofs::lemmas::Bool::Decides::nat_tests))]
fn moment_at(day: u64, second: u64) -> Option<u64>
    ensures { result ≡ moment_at day second }
{
    if second >= DAY_SECONDS {
        return None;
    }
    day.checked_mul(DAY_SECONDS)?.checked_add(second)
}

#[tactic(auto, unfolding(crate::specs::Acts::actor_in))]
fn actor_in(row: &Row) -> Option<Option<Actor>>
    ensures { result ≡ actor_in row.now }
{
    let account = name_or_null(row, ACTOR)?;
    let token = name_or_null(row, TOKEN)?;
    match (account, token) {
        (None, None) => Some(None),
        (Some(account), Some(token)) => Some(Some(Actor { account, token })),
        _ => None,
    }
}

// day, second
fn moment_values(moment: Option<u64>) -> [ValueRef<'static>; 2]
    ensures { bound result ≡ moment_values moment }
{
    match moment {
        Some(moment) => [
            whole_value(moment / DAY_SECONDS),
            whole_value(moment % DAY_SECONDS),
        ],
        None => [ValueRef::Null; 2],
    }
}

// actor, token
fn actor_values(by: &Option<Actor>) -> [ValueRef<'_>; 2]
    ensures { bound result ≡ actor_values by.now }
{
    match by {
        Some(actor) => [name_value(&actor.account), name_value(&actor.token)],
        None => [ValueRef::Null; 2],
    }
}

#[tactic(auto, using(std::proofs::lemmas::Bool::Decides::nat_tests))]
fn stamp_formed(stamp: &Stamp)
    ensures { is_stamp stamp.now ≡ true }
{
    if let Some(moment) = stamp.moment {
        let _moment = moment;
    }
    if let Some(actor) = &stamp.by {
        actor.account.formed();
        actor.token.formed();
    }
}
