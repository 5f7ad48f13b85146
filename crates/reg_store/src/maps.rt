//! Rows in ordered maps.
ghost use Rattle.std.specs.Prelude.{◌≡◌, ◌++◌, Option, map as each, filter_map, OnOk, OnErr};
ghost use Rattle.std.specs.Fn.{FnOnceReturnsAtMut};
ghost use Rattle.std.specs.Option.{option_copied};
ghost use Rattle.std.specs.FinMap as fin;
ghost use Rattle.reg_maps.specs.Maps.{update, finite_map};
ghost use Rattle.reg_maps.proofs.MapLaws.{IsKeyOrder, number_keys, text_keys, pair_keys};
ghost use Rattle.reg_core.proofs.KeyOrders.{block_keys};
ghost use Rattle.reg_store.specs.Maps.{Computes};

use reg_blocks::block::Block;
use reg_core::text::{Form, Word};
use std::alloc::AllocError;
use std::collections::BTreeMap;

/// Keys of which only equal ones tie.
pub trait Key: Ord {
    /// Only equal ones tie.
    ghost order: { IsKeyOrder Self.cmp };
}

impl Key for u32 {
    ghost order = { number_keys };
}

impl<F: Form<N>, const N: usize> Key for Word<F, N> {
    ghost order = { text_keys };
}

impl Key for Block {
    ghost order = { block_keys };
}

impl<A: Key, B: Key> Key for (A, B) {
    ghost order = { pair_keys A.order B.order };
}

/// The row at a key.
pub fn row_at<'a, K: Key, V>(map: &'a BTreeMap<K, V>, key: &K) -> Option<&'a V>
    ensures { option_copied result ≡ fin.get (finite_map K.cmp map.now) key.now }
{
    map.get(key)
}

/// Adds a row or replaces the one at its key.
pub fn set_row<K: Key + Drop, V: Drop>(
    map: &mut BTreeMap<K, V>,
    key: K,
    row: V,
) -> Result<(), AllocError>
    ensures ok { OnOk result (finite_map K.cmp map.new
        ≡ fin.insert (finite_map K.cmp map.old) key row) }
    ensures err { OnErr result (finite_map K.cmp map.new ≡ finite_map K.cmp map.old) }
{
    map.insert(key, row)?;
    Ok(())
}

/// Changes the row at a key, if there is one.
pub fn change_at<K: Key, V, F: FnOnce(&mut V) + Drop>(map: &mut BTreeMap<K, V>, key: &K, change: F)
    requires { F.IsAlwaysCallable change }
    ensures { (f : V → V)
        → ((row left : V) → FnOnceReturnsAtMut F.FnOnce change row tt left → left ≡ f row)
        → finite_map K.cmp map.new ≡ update (finite_map K.cmp map.old) key.now f }
{
    if let Some(row) = map.get_mut(key) {
        change(row);
    }
}

/// Takes the row at a key away, if there is one.
pub fn unset_row<K: Key + Drop, V: Drop>(map: &mut BTreeMap<K, V>, key: &K)
    ensures { finite_map K.cmp map.new ≡ fin.remove (finite_map K.cmp map.old) key.now }
{
    map.remove(key);
}

/// Pushes what is made of each row, in order.
pub fn push_rows<K: Ord, V, T: Drop, F: Fn(&K, &V) -> Result<T, AllocError>>(
    made: &mut Vec<T>,
    map: &BTreeMap<K, V>,
    make: F,
) -> Result<(), AllocError>
    requires { F.IsAlwaysCallable make }
    ensures { (f : K → V → T) → Computes (F.post make) f
        → OnOk result (made.new.items ≡ made.old.items ++ each (λ e. f e.0 e.1) map.now.entries) }
{
    for (key, row) in map {
        made.push(make(key, row)?)?;
    }
    Ok(())
}

/// Pushes what is made of each row of which something is made, in order.
pub fn push_some<K: Ord, V, T: Drop, F: Fn(&K, &V) -> Result<Option<T>, AllocError>>(
    made: &mut Vec<T>,
    map: &BTreeMap<K, V>,
    make: F,
) -> Result<(), AllocError>
    requires { F.IsAlwaysCallable make }
    ensures { (f : K → V → Option T) → Computes (F.post make) f
        → OnOk result (made.new.items
        ≡ made.old.items ++ filter_map (λ e. f e.0 e.1) map.now.entries) }
{
    for (key, row) in map {
        if let Some(one) = make(key, row)? {
            made.push(one)?;
        }
    }
    Ok(())
}
