//! Requests with what experts say of them.
ghost use Rattle.std.specs.Prelude.{◌≡◌, IfOk, filter_map, map, option_map};
ghost use Rattle.std.specs.FinMap.{get};
ghost use Rattle.sqlite.specs.Held.{state};
ghost use Rattle.reg_core.specs.File.{experts_of, file as file_of, opinions_of};
ghost use Rattle.reg_core.specs.Queue.{queue_row, queue_rows};
ghost use Rattle.reg_core.specs.View.{queue_of};
ghost use Rattle.reg_rows.specs.Calls.{IsKeeping, Looks};
ghost use Rattle.reg_rows.specs.Seats.{opinion_at};

use crate::requests::own_one;
use reg_core::advice::Opinion;
use reg_core::case_file::CaseFile;
use reg_core::queue::QueueRow;
use reg_core::rows::Rows;
use reg_core::text::{Account, Ref};
use reg_keeper::keeper::Fault;
use reg_records::advised::AdvisedSeat;
use reg_records::column::name_value;
use reg_records::queued::QueuedRequest;
use reg_rows::advice::advice;
use reg_rows::minutes::minuted_each;
use reg_rows::queue::is_queued;
use reg_rows::queued::queued;
use reg_statements::loads::Loads;
use reg_statements::select::all;
use reg_tables::reports::Reports;
use reg_tables::texts::{SELECT_QUEUED, SELECT_SEATS};
use sqlite::Connection;
use std::alloc::{AllocError, Global};

/// The request of an account under a reference, with its experts and all advice on it, by expert.
pub fn file<S: Reports + Loads>(
    alloc: Global,
    conn: &mut Connection<S>,
    account: &Account,
    reference: &Ref,
) -> Result<Option<CaseFile>, Fault>
    requires { IsKeeping (state S.Store conn.old) }
    ensures { Looks (state S.Store conn.old) (state S.Store conn.new) result
        (λ w row. row ≡ option_map (file_of w (account.now, reference.now))
        (get w.requests (account.now, reference.now))) }
{
    let (experts, advice) = seats(alloc, conn, account, reference)?;
    let Some(request) = own_one(alloc, conn, account, reference)? else {
        return Ok(None);
    };
    Ok(Some(CaseFile {
        request,
        experts,
        advice,
    }))
}

/// The experts to whom a request is assigned, and all advice on it, by expert.
#[tactic(auto, using(reg_tables::proofs::Statements::seats_of_request))]
pub(crate) fn seats<S: Reports + Loads>(
    alloc: Global,
    conn: &mut Connection<S>,
    account: &Account,
    reference: &Ref,
) -> Result<(Rows<Account>, Rows<Opinion>), Fault>
    requires { IsKeeping (state S.Store conn.old) }
    ensures { Looks (state S.Store conn.old) (state S.Store conn.new) result
        (λ w seats. (seats.0 ≡ experts_of w (account.now, reference.now))
        × (seats.1 ≡ opinions_of w (account.now, reference.now))) }
{
    let seats = all::<S, AdvisedSeat>(
        alloc,
        conn,
        SELECT_SEATS,
        &[name_value(account), name_value(reference)],
    )?;
    let experts = experts_at(alloc, seats.as_slice())?;
    let opinions = opinions_at(alloc, seats)?;
    Ok((Rows::from_vec(experts), Rows::from_vec(opinions)))
}

/// All requests that are assigned to an expert, with the expert's own advice, by account and then
/// by reference.
#[tactic(auto, using(reg_tables::proofs::Statements::queued_of_expert))]
pub fn queue<S: Reports + Loads>(
    alloc: Global,
    conn: &mut Connection<S>,
    expert: &Account,
) -> Result<Rows<QueueRow>, Fault>
    requires { IsKeeping (state S.Store conn.old) }
    ensures { Looks (state S.Store conn.old) (state S.Store conn.new) result
        (λ w rows. rows ≡ queue_rows (queue_of expert.now w)) }
{
    let requests = all::<S, QueuedRequest>(alloc, conn, SELECT_QUEUED, &[name_value(expert)])?;
    Ok(Rows::from_vec(minuted_each(alloc, conn, requests)?))
}

/// The request of an account under a reference, with the expert's own advice, if it is assigned to
/// the expert.
pub fn queue_one<S: Reports + Loads>(
    alloc: Global,
    conn: &mut Connection<S>,
    expert: &Account,
    account: &Account,
    reference: &Ref,
) -> Result<Option<QueueRow>, Fault>
    requires { IsKeeping (state S.Store conn.old) }
    ensures { Looks (state S.Store conn.old) (state S.Store conn.new) result
        (λ w row. row ≡ option_map (queue_row (account.now, reference.now))
        (get (queue_of expert.now w) (account.now, reference.now))) }
{
    if !is_queued(alloc, conn, account, reference, expert)? {
        return Ok(None);
    }
    let advice = advice(alloc, conn, account, reference, expert)?;
    let request = own_one(alloc, conn, account, reference)?;
    Ok(request.map(|request| queued(request, advice)))
}

// The experts of seats.
fn experts_at(alloc: Global, seats: &[AdvisedSeat]) -> Result<Vec<Account>, AllocError>
    ensures { IfOk result (λ experts. experts.items ≡ map (λ s. s.seat.expert) seats.now) }
{
    seats.iter().map(|row| row.seat.expert).collect(alloc)
}

// What the experts of seats say, where they say something.
fn opinions_at(alloc: Global, seats: Vec<AdvisedSeat>) -> Result<Vec<Opinion>, AllocError>
    ensures { IfOk result (λ opinions. opinions.items ≡ filter_map opinion_at seats.items) }
{
    seats.into_iter().filter_map(opinion_at).collect(alloc)
}

// What the expert of a seat says, if anything.
fn opinion_at(row: AdvisedSeat) -> Option<Opinion>
    ensures { result ≡ opinion_at row }
{
    let expert = row.seat.expert;
    let advice = row.advice?;
    Some(Opinion { expert, advice })
}
