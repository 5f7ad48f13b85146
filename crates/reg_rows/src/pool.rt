//! The pool of prefixes in its table.
ghost use Rattle.std.specs.Prelude.{◌≡◌, false, IfOk, OnOk};
ghost use Rattle.std.specs.FinMap.{contains_key, insert, keys};
ghost use Rattle.std.specs.Ordering.{nat_cmp};
ghost use Rattle.sqlite.specs.Held.{state};
ghost use Rattle.reg_blocks.specs.Pool.{AddsPrefix};
ghost use Rattle.reg_core.specs.World.{World};
ghost use Rattle.reg_rows.specs.Calls.{IsKeeping, Looks, Steps};
ghost use Rattle.reg_statements.specs.Loading.{IsAscending};

use crate::kept::{add, find, list};
use reg_blocks::pool::{Add, Pool};
use reg_keeper::keeper::Fault;
use reg_ranges::formed::Formed;
use reg_records::column::number_value;
use reg_records::pool::Prefix;
use reg_statements::loads::Loads;
use reg_tables::reports::Reports;
use reg_tables::texts::{INSERT_POOL, SELECT_POOL, SELECT_PREFIX};
use sqlite::{Connection, Transaction};
use std::alloc::Global;

/// The prefixes of the pool.
#[tactic(auto, using(reg_tables::proofs::Statements::all_pool))]
pub fn pool<S: Reports + Loads>(alloc: Global, conn: &mut Connection<S>) -> Result<Pool, Fault>
    requires { IsKeeping (state S.Store conn.old) }
    ensures { Looks (state S.Store conn.old) (state S.Store conn.new) result
        (λ w pool. pool ≡ keys w.pool) }
{
    let prefixes = list::<S, Prefix>(alloc, conn, SELECT_POOL, &[])?;
    pool_of(alloc, prefixes.as_slice())
}

/// Whether a prefix is in the pool.
#[tactic(auto, using(reg_tables::proofs::Statements::prefix_by_key))]
pub fn is_pooled<S: Reports + Loads>(
    alloc: Global,
    conn: &mut Connection<S>,
    prefix: u32,
) -> Result<bool, Fault>
    requires { IsKeeping (state S.Store conn.old) }
    ensures { Looks (state S.Store conn.old) (state S.Store conn.new) result
        (λ w pooled. pooled ≡ contains_key w.pool prefix) }
{
    let found = find::<S, Prefix>(alloc, conn, SELECT_PREFIX, &[number_value(prefix)])?;
    Ok(found.is_some())
}

/// Adds a prefix that is not in the pool.
#[tactic(auto, using(crate::proofs::Statements::adds_prefix))]
pub fn add_prefix<S: Reports>(tx: &mut Transaction<'_, S>, prefix: u32) -> Result<(), Fault>
    ensures same_reference { tx.new.conn.ghost_name ≡ tx.old.conn.ghost_name }
    ensures steps { Steps (state S.Store tx.old.conn.now) (state S.Store tx.new.conn.now) result
        (λ (w : World). contains_key w.pool prefix ≡ false)
        (λ (w : World). record w { pool = insert w.pool prefix tt }) }
{
    let prefix = Prefix::new(prefix);
    prefix.formed();
    add::<S, Prefix>(tx, INSERT_POOL, &prefix.values())
}

/// The pool with these prefixes. One that may not be in a pool is a fault of the store.
fn pool_of(alloc: Global, prefixes: &[Prefix]) -> Result<Pool, Fault>
    requires { IsAscending nat_cmp prefixes.now }
    ensures { IfOk result (λ pool. pool ≡ prefixes.now) }
{
    let mut pool = Pool::new(alloc);
    for prefix in prefixes {
        put_prefix(&mut pool, prefix.number())?;
    }
    let _prefixes = pool.prefixes();
    Ok(pool)
}

/// Adds a prefix to a pool.
fn put_prefix(pool: &mut Pool, prefix: u32) -> Result<(), Fault>
    ensures { OnOk result (AddsPrefix pool.old pool.new prefix) }
{
    match pool.add(prefix) {
        Add::Added | Add::There => Ok(()),
        Add::Memory => Err(Fault::Memory),
        Add::Bits => Err(Fault::Store),
    }
}
