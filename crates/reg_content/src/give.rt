//! Changes that write more than one row.
ghost use Rattle.std.specs.Prelude.{◌≡◌, None, option_map};
ghost use Rattle.std.specs.FinMap.{get};
ghost use Rattle.sqlite.specs.Held.{state};
ghost use Rattle.reg_core.specs.World.{World, applied};
ghost use Rattle.reg_core.specs.declared.change.Change.TheVariants.{GiveBlock, GiveValue, Submit};
ghost use Rattle.reg_core.specs.Minutes.{minute_of};
ghost use Rattle.reg_rows.specs.Calls.{Steps};
ghost use Rattle.reg_rows.specs.Changing.{CanGiveBlock, CanGiveValue};

use crate::blocks::add_block;
use crate::requests::{add_request, set_state};
use reg_core::ask::Ask;
use reg_core::entry::Entry;
use reg_core::holding::Holding;
use reg_core::request::{Request, State};
use reg_core::text::{Account, Ref, Text};
use reg_keeper::keeper::Fault;
use reg_rows::entries::put_entry;
use reg_rows::minutes::add_minute;
use reg_tables::reports::Reports;
use sqlite::Transaction;
use std::alloc::Global;

/// Adds a pending request, with the minute that it names, at a name that has none.
pub fn submit<S: Reports>(
    tx: &mut Transaction<'_, S>,
    account: &Account,
    reference: &Ref,
    ask: &Ask,
) -> Result<(), Fault>
    ensures same_reference { tx.new.conn.ghost_name ≡ tx.old.conn.ghost_name }
    ensures steps { Steps (state S.Store tx.old.conn.now) (state S.Store tx.new.conn.now) result
        (λ (w : World). get w.requests (account.now, reference.now) ≡ None)
        (λ (w : World). applied w (Submit account.now reference.now ask.now)) }
{
    let request = Request {
        account: *account,
        reference: *reference,
        ask: ask.copy()?,
        state: State::Pending,
    };
    let added = add_request(tx, &request);
    drop(request);
    added?;
    match minute_of(ask) {
        Some(minute) => add_minute(tx, account, reference, minute),
        None => Ok(()),
    }
}

/// The minute that an ask names, if it names one.
fn minute_of(ask: &Ask) -> Option<&Text>
    ensures { option_map (λ minute. minute.now) result ≡ minute_of ask.now }
{
    match ask {
        Ask::Renew(renewal) => renewal.iesg.as_ref(),
        Ask::Code(_) | Ask::Early(_) | Ask::Permanent(_) | Ask::Block(_) => None,
    }
}

/// Approves a request and adds the entry that it is given, or puts it in the place of one. The mark
/// that stands there is that of the new term after it.
pub fn give_value<S: Reports>(
    alloc: Global,
    tx: &mut Transaction<'_, S>,
    account: &Account,
    reference: &Ref,
    entry: &Entry,
) -> Result<(), Fault>
    ensures same_reference { tx.new.conn.ghost_name ≡ tx.old.conn.ghost_name }
    ensures steps { Steps (state S.Store tx.old.conn.now) (state S.Store tx.new.conn.now) result
        (CanGiveValue (account.now, reference.now) entry.now)
        (λ (w : World). applied w (GiveValue account.now reference.now entry.now)) }
{
    set_state(alloc, tx, account, reference, &entry.approval())?;
    put_entry(tx, entry)?;
    Ok(())
}

/// Approves a request and adds the block that it is given.
pub fn give_block<S: Reports>(
    alloc: Global,
    tx: &mut Transaction<'_, S>,
    account: &Account,
    reference: &Ref,
    holding: &Holding,
) -> Result<(), Fault>
    ensures same_reference { tx.new.conn.ghost_name ≡ tx.old.conn.ghost_name }
    ensures steps { Steps (state S.Store tx.old.conn.now) (state S.Store tx.new.conn.now) result
        (CanGiveBlock (account.now, reference.now) holding.now)
        (λ (w : World). applied w (GiveBlock account.now reference.now holding.now)) }
{
    set_state(alloc, tx, account, reference, &holding.approval())?;
    add_block(tx, holding)?;
    Ok(())
}
