//! Advice in its table.
ghost use Rattle.std.specs.Prelude.{◌≡◌, true};
ghost use Rattle.std.specs.FinMap.{get, insert};
ghost use Rattle.sqlite.specs.Held.{state};
ghost use Rattle.sqlite.specs.Values.{bound};
ghost use Rattle.reg_core.specs.World.{World};
ghost use Rattle.reg_records.specs.Advice.{advice_values, is_expert_advice};
ghost use Rattle.reg_rows.specs.Calls.{IsKeeping, Looks, Steps};

use crate::kept::{find, put};
use reg_core::advice::Advice;
use reg_core::text::{Account, Ref};
use reg_keeper::keeper::Fault;
use reg_ranges::formed::Formed;
use reg_records::advice::ExpertAdvice;
use reg_records::column::{name_value, printable_value, word_value};
use reg_records::queue::Seat;
use reg_statements::loads::Loads;
use reg_tables::reports::Reports;
use reg_tables::texts::{PUT_ADVICE, SELECT_ADVICE_ROW};
use sqlite::types::ValueRef;
use sqlite::{Connection, Transaction};
use std::alloc::Global;

/// An expert's advice on a request.
#[tactic(auto, using(reg_tables::proofs::Statements::advice_by_key))]
pub fn advice<S: Reports + Loads>(
    alloc: Global,
    conn: &mut Connection<S>,
    account: &Account,
    reference: &Ref,
    expert: &Account,
) -> Result<Option<Advice>, Fault>
    requires { IsKeeping (state S.Store conn.old) }
    ensures { Looks (state S.Store conn.old) (state S.Store conn.new) result
        (λ w advice. advice ≡ get w.advice ((account.now, reference.now), expert.now)) }
{
    let found = find::<S, ExpertAdvice>(
        alloc,
        conn,
        SELECT_ADVICE_ROW,
        &[
            name_value(account),
            name_value(reference),
            name_value(expert),
        ],
    )?;
    Ok(found.map(|found| found.advice))
}

/// Puts an expert's advice on a request in the place of the one that the expert gave before, or
/// adds it where there is none.
#[tactic(auto, using(crate::proofs::Statements::puts_advice))]
pub fn put_advice<S: Reports>(
    tx: &mut Transaction<'_, S>,
    account: &Account,
    reference: &Ref,
    expert: &Account,
    advice: &Advice,
) -> Result<(), Fault>
    ensures same_reference { tx.new.conn.ghost_name ≡ tx.old.conn.ghost_name }
    ensures steps { Steps (state S.Store tx.old.conn.now) (state S.Store tx.new.conn.now) result
        (λ (w : World). Unit {0})
        (λ (w : World). record w {
          advice = insert w.advice ((account.now, reference.now), expert.now) advice.now;
        }) }
{
    let seat = Seat {
        account: *account,
        reference: *reference,
        expert: *expert,
    };
    formed(&seat, advice);
    put::<S, ExpertAdvice>(tx, PUT_ADVICE, &values(&seat, advice))
}

/// The row that is written for the advice of a seat's expert.
fn values<'a>(seat: &'a Seat, advice: &'a Advice) -> [ValueRef<'a>; 5]
    ensures { bound result ≡ advice_values (record { seat = seat.now; advice = advice.now }) }
{
    let [account, reference, expert] = seat.values();
    [
        account,
        reference,
        expert,
        word_value(&advice.verdict),
        printable_value(&advice.text),
    ]
}

/// Does nothing: the parts of an advice have their forms.
fn formed(seat: &Seat, advice: &Advice)
    ensures { is_expert_advice (record { seat = seat.now; advice = advice.now }) ≡ true }
{
    seat.formed();
    advice.formed();
}
