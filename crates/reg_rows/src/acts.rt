//! Acts that are listed from their table.
ghost use Rattle.std.specs.Prelude.{◌≡◌, IfOk, map};
ghost use Rattle.sqlite.specs.Held.{state};
ghost use Rattle.reg_core.specs.Journal.{acts_where, is_about, is_by, is_on};
ghost use Rattle.reg_rows.specs.Calls.{IsKeeping, Looks};
ghost use Rattle.reg_keeper.specs.Keeper.{all_acts};

use crate::kept::list;
use reg_core::journal::Act;
use reg_core::rows::Rows;
use reg_core::text::{Account, Ref};
use reg_early::day::Day;
use reg_keeper::keeper::Fault;
use reg_records::acts::NumberedAct;
use reg_records::column::{name_value, whole_value};
use reg_statements::loads::Loads;
use reg_tables::reports::Reports;
use reg_tables::texts::{SELECT_ACTS_ABOUT, SELECT_ACTS_BY, SELECT_ACTS_ON, SELECT_JOURNAL};
use sqlite::Connection;
use std::alloc::{AllocError, Global};

/// All acts, oldest first.
#[tactic(auto, using(reg_tables::proofs::Statements::all_acts))]
pub fn acts<S: Reports + Loads>(alloc: Global, conn: &mut Connection<S>) -> Result<Rows<Act>, Fault>
    requires { IsKeeping (state S.Store conn.old) }
    ensures { Looks (state S.Store conn.old) (state S.Store conn.new) result
        (λ w acts. acts ≡ all_acts w) }
{
    let rows = list::<S, NumberedAct>(alloc, conn, SELECT_JOURNAL, &[])?;
    Ok(Rows::from_vec(acts_in(alloc, rows.as_slice())?))
}

/// The acts of a day, oldest first.
#[tactic(auto, using(reg_tables::proofs::Statements::acts_of_day))]
pub fn acts_on<S: Reports + Loads>(
    alloc: Global,
    conn: &mut Connection<S>,
    day: Day,
) -> Result<Rows<Act>, Fault>
    requires { IsKeeping (state S.Store conn.old) }
    ensures { Looks (state S.Store conn.old) (state S.Store conn.new) result
        (λ w acts. acts ≡ acts_where (is_on day) w) }
{
    let day = u64::from(day.days());
    let rows = list::<S, NumberedAct>(alloc, conn, SELECT_ACTS_ON, &[whole_value(day)])?;
    Ok(Rows::from_vec(acts_in(alloc, rows.as_slice())?))
}

/// The acts that an account made, oldest first.
#[tactic(auto, using(reg_tables::proofs::Statements::acts_of_actor))]
pub fn acts_by<S: Reports + Loads>(
    alloc: Global,
    conn: &mut Connection<S>,
    account: &Account,
) -> Result<Rows<Act>, Fault>
    requires { IsKeeping (state S.Store conn.old) }
    ensures { Looks (state S.Store conn.old) (state S.Store conn.new) result
        (λ w acts. acts ≡ acts_where (is_by account.now) w) }
{
    let rows = list::<S, NumberedAct>(alloc, conn, SELECT_ACTS_BY, &[name_value(account)])?;
    Ok(Rows::from_vec(acts_in(alloc, rows.as_slice())?))
}

/// The acts about a request, oldest first.
#[tactic(auto, using(reg_tables::proofs::Statements::acts_of_request))]
pub fn acts_about<S: Reports + Loads>(
    alloc: Global,
    conn: &mut Connection<S>,
    account: &Account,
    reference: &Ref,
) -> Result<Rows<Act>, Fault>
    requires { IsKeeping (state S.Store conn.old) }
    ensures { Looks (state S.Store conn.old) (state S.Store conn.new) result
        (λ w acts. acts ≡ acts_where (is_about (account.now, reference.now)) w) }
{
    let rows = list::<S, NumberedAct>(
        alloc,
        conn,
        SELECT_ACTS_ABOUT,
        &[name_value(account), name_value(reference)],
    )?;
    Ok(Rows::from_vec(acts_in(alloc, rows.as_slice())?))
}

// The acts of rows.
fn acts_in(alloc: Global, rows: &[NumberedAct]) -> Result<Vec<Act>, AllocError>
    ensures { IfOk result (λ acts. acts.items ≡ map (λ n. n.act) rows.now) }
{
    let mut acts = Vec::with_capacity(alloc, rows.len())?;
    for row in rows {
        acts.push(row.act)?;
    }
    Ok(acts)
}
