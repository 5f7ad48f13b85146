//! A pool that is made of its prefixes.
ghost use Rattle.std.specs.Prelude.{◌≡◌, Contains, IsTrue, Ok, IfOk, OnOk, OnErr};
ghost use Rattle.std.specs.FinMap as fin;
ghost use Rattle.reg_blocks.specs.Pool.{is_pool_prefix, IsPool};
ghost use Rattle.reg_vacancies.specs.Pool.{prefix_set};

use reg_blocks::pool::{Add, Pool};
use std::alloc::{AllocError, Global};
use std::collections::BTreeSet;

/// The pool with these prefixes.
pub fn pool_with(alloc: Global, prefixes: &BTreeSet<u32>) -> Result<Pool, AllocError>
    requires { IsPool prefixes.now.keys }
    ensures { IfOk result (λ pool. pool ≡ prefixes.now.keys) }
{
    let mut pool = Pool::new(alloc);
    for prefix in prefixes {
        put_prefix(&mut pool, *prefix)?;
    }
    let _prefixes = pool.prefixes();
    Ok(pool)
}

// Adds a prefix that may be in a pool; one that is there changes nothing, and needs no memory.
fn put_prefix(pool: &mut Pool, prefix: u32) -> Result<(), AllocError>
    requires { IsTrue (is_pool_prefix prefix) }
    ensures ok { OnOk result (prefix_set pool.new ≡ fin.insert (prefix_set pool.old) prefix tt) }
    ensures err { OnErr result (pool.new ≡ pool.old) }
    ensures there { Contains pool.old prefix → result ≡ Ok tt }
{
    match pool.add(prefix) {
        Add::Added | Add::There => Ok(()),
        Add::Memory => Err(AllocError),
        Add::Bits => unreachable!(),
    }
}
