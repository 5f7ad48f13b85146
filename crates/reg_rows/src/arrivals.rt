//! When requests came, as the table of acts has it.
ghost use Rattle.std.specs.Prelude.{◌≡◌, Some, find, if◌then◌else◌, reverse};
ghost use Rattle.sqlite.specs.Held.{state};
ghost use Rattle.reg_core.specs.Arrivals.{arrival as arrival_of};
ghost use Rattle.reg_core.specs.Times.{submits as submits_it};
ghost use Rattle.reg_rows.specs.Arrivals.{arrival_by};
ghost use Rattle.reg_rows.specs.Calls.{IsKeeping, Looks};

use crate::kept::list;
use reg_core::journal::{Arrival, Deed};
use reg_core::text::{Account, Ref};
use reg_keeper::keeper::Fault;
use reg_records::acts::NumberedAct;
use reg_records::column::name_value;
use reg_statements::loads::Loads;
use reg_tables::reports::Reports;
use reg_tables::texts::SELECT_ACTS_ABOUT;
use sqlite::Connection;
use std::alloc::Global;

/// When the request of an account under a reference came. Only the acts about it are read.
#[tactic(auto, using(reg_tables::proofs::Statements::acts_of_request))]
pub fn arrival<S: Reports + Loads>(
    alloc: Global,
    conn: &mut Connection<S>,
    account: &Account,
    reference: &Ref,
) -> Result<Arrival, Fault>
    requires { IsKeeping (state S.Store conn.old) }
    ensures { Looks (state S.Store conn.old) (state S.Store conn.new) result
        (λ w found. found ≡ arrival_of w.journal (account.now, reference.now)) }
{
    let rows = list::<S, NumberedAct>(
        alloc,
        conn,
        SELECT_ACTS_ABOUT,
        &[name_value(account), name_value(reference)],
    )?;
    Ok(last_arrival(rows.as_slice(), account, reference))
}

// When a request came, as the last of these acts has it by which it did.
fn last_arrival(rows: &[NumberedAct], account: &Account, reference: &Ref) -> Arrival
    ensures { result ≡ arrival_by
        (find (λ n. submits_it (account.now, reference.now) n.act.deed) (reverse rows.now)) }
{
    let mut found = Arrival {
        number: 0,
        moment: None,
    };
    for row in rows {
        found = arrival_after(found, row, account, reference);
    }
    found
}

// When a request came, after one act more.
fn arrival_after(found: Arrival, row: &NumberedAct, account: &Account, reference: &Ref) -> Arrival
    ensures { result ≡ (if submits_it (account.now, reference.now) row.now.act.deed
        then arrival_by (Some row.now) else found) }
{
    if submits(&row.act.deed, account, reference) {
        Arrival {
            number: u64::from(row.number),
            moment: row.act.stamp.moment,
        }
    } else {
        found
    }
}

// By this the request came.
fn submits(deed: &Deed, account: &Account, reference: &Ref) -> bool
    ensures { result ≡ submits_it (account.now, reference.now) deed.now }
{
    match deed {
        Deed::Submit(of, under) => of == account && under == reference,
        _ => false,
    }
}
