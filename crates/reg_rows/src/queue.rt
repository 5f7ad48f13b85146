//! Seats of experts in the table of the queue.
ghost use Rattle.std.specs.Prelude.{◌≡◌, false};
ghost use Rattle.std.specs.FinMap.{contains_key};
ghost use Rattle.sqlite.specs.Held.{state};
ghost use Rattle.reg_core.specs.World.{World, applied};
ghost use Rattle.reg_core.specs.declared.change.Change.TheVariants.{Assign};
ghost use Rattle.reg_rows.specs.Calls.{IsKeeping, Looks, Steps};

use crate::kept::{add, find};
use reg_core::text::{Account, Ref};
use reg_keeper::keeper::Fault;
use reg_ranges::formed::Formed;
use reg_records::column::name_value;
use reg_records::queue::Seat;
use reg_statements::loads::Loads;
use reg_tables::reports::Reports;
use reg_tables::texts::{INSERT_QUEUE, SELECT_QUEUE_ROW};
use sqlite::{Connection, Transaction};
use std::alloc::Global;

/// Whether a request is assigned to an expert.
#[tactic(auto, using(reg_tables::proofs::Statements::queue_by_key))]
pub fn is_queued<S: Reports + Loads>(
    alloc: Global,
    conn: &mut Connection<S>,
    account: &Account,
    reference: &Ref,
    expert: &Account,
) -> Result<bool, Fault>
    requires { IsKeeping (state S.Store conn.old) }
    ensures { Looks (state S.Store conn.old) (state S.Store conn.new) result
        (λ w queued. queued ≡
        contains_key w.queue ((account.now, reference.now), expert.now)) }
{
    let seat = find::<S, Seat>(
        alloc,
        conn,
        SELECT_QUEUE_ROW,
        &[
            name_value(account),
            name_value(reference),
            name_value(expert),
        ],
    )?;
    Ok(seat.is_some())
}

/// Assigns a request to an expert to whom it is not assigned.
#[tactic(auto, using(crate::proofs::Statements::adds_seat))]
pub fn add_seat<S: Reports>(
    tx: &mut Transaction<'_, S>,
    account: &Account,
    reference: &Ref,
    expert: &Account,
) -> Result<(), Fault>
    ensures same_reference { tx.new.conn.ghost_name ≡ tx.old.conn.ghost_name }
    ensures steps { Steps (state S.Store tx.old.conn.now) (state S.Store tx.new.conn.now) result
        (λ (w : World).
        contains_key w.queue ((account.now, reference.now), expert.now) ≡ false)
        (λ (w : World). applied w (Assign account.now reference.now expert.now)) }
{
    let seat = Seat {
        account: *account,
        reference: *reference,
        expert: *expert,
    };
    seat.formed();
    add::<S, Seat>(tx, INSERT_QUEUE, &seat.values())
}
