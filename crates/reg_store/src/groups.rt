//! Rows in groups: a map of maps.
ghost use Rattle.std.specs.Prelude.{◌≡◌, None, map, IfOk, OnOk, OnErr, IsSome, option_and_then};
ghost use Rattle.std.specs.Fn.{FnOnceReturnsAtMut};
ghost use Rattle.std.specs.Option.{option_copied};
ghost use Rattle.std.specs.BTreeMap as tree;
ghost use Rattle.std.specs.FinMap as fin;
ghost use Rattle.reg_maps.specs.Maps.{update};
ghost use Rattle.reg_maps.specs.Groups.{pair_map, group_at, group_rows, rows_of};
ghost use Rattle.reg_store.specs.Maps.{Computes, HasOneMore, HaveSameItems};

use crate::maps::{Key, change_at, push_rows};
use std::alloc::{AllocError, Global};
use std::collections::BTreeMap;

/// The row at two keys.
pub fn row_in<'a, A: Key, B: Key, V>(
    groups: &'a BTreeMap<A, BTreeMap<B, V>>,
    first: &A,
    second: &B,
) -> Option<&'a V>
    ensures { option_copied result
        ≡ fin.get (pair_map A.cmp B.cmp groups.now) (first.now, second.now) }
{
    let _groups = groups.len();
    groups.get(first)?.get(second)
}

/// A group, if there is one.
pub fn group_in<'a, A: Key, B: Key, V>(
    groups: &'a BTreeMap<A, BTreeMap<B, V>>,
    first: &A,
) -> Option<&'a BTreeMap<B, V>>
    ensures rows { fin.entries (group_at A.cmp (pair_map A.cmp B.cmp groups.now) first.now)
        ≡ group_rows first.now (rows_of (option_copied result)) }
    ensures row { (second : B)
        → option_and_then (λ group. tree.get B.cmp group second) (option_copied result)
        ≡ fin.get (pair_map A.cmp B.cmp groups.now) (first.now, second) }
{
    let _groups = groups.len();
    let group = groups.get(first)?;
    let _rows = group.len();
    Some(group)
}

/// What is made of each row of a group, in order.
pub fn list_group<A: Key, B: Key, V, T: Drop, F: Fn(&B, &V) -> Result<T, AllocError> + Drop>(
    alloc: Global,
    groups: &BTreeMap<A, BTreeMap<B, V>>,
    first: &A,
    make: F,
) -> Result<Vec<T>, AllocError>
    requires { F.IsAlwaysCallable make }
    ensures { (f : A × B → V → T) → Computes (F.post make) (λ second. f (first.now, second))
        → IfOk result (λ made. made.items ≡ map (λ e. f e.0 e.1)
        (fin.entries (group_at A.cmp (pair_map A.cmp B.cmp groups.now) first.now))) }
{
    let Some(group) = group_in(groups, first) else {
        return Ok(Vec::new(alloc));
    };
    let mut made = Vec::with_capacity(alloc, group.len())?;
    push_rows(&mut made, group, make)?;
    Ok(made)
}

/// Adds a row to a group, or replaces the one at its key. Only a new row can fail.
pub fn put_row<A: Key + Drop, B: Key + Drop, V: Drop>(
    alloc: Global,
    groups: &mut BTreeMap<A, BTreeMap<B, V>>,
    first: A,
    second: B,
    row: V,
) -> Result<(), AllocError>
    ensures ok { OnOk result (pair_map A.cmp B.cmp groups.new
        ≡ fin.insert (pair_map A.cmp B.cmp groups.old) (first, second) row) }
    ensures err { OnErr result (pair_map A.cmp B.cmp groups.new
        ≡ pair_map A.cmp B.cmp groups.old) }
    ensures absent { OnErr result (fin.get (pair_map A.cmp B.cmp groups.old) (first, second)
        ≡ None) }
{
    match groups.get_mut(&first) {
        Some(group) => {
            group.insert(second, row)?;
        }
        None => {
            let mut group = BTreeMap::new(alloc);
            group.insert(second, row)?;
            groups.insert(first, group)?;
        }
    }
    Ok(())
}

/// Changes the row at two keys, if there is one.
pub fn change_row<A: Key, B: Key, V, F: FnOnce(&mut V) + Drop>(
    groups: &mut BTreeMap<A, BTreeMap<B, V>>,
    first: &A,
    second: &B,
    change: F,
)
    requires { F.IsAlwaysCallable change }
    ensures { (f : V → V)
        → ((row left : V) → FnOnceReturnsAtMut F.FnOnce change row tt left → left ≡ f row)
        → pair_map A.cmp B.cmp groups.new
        ≡ update (pair_map A.cmp B.cmp groups.old) (first.now, second.now) f }
{
    if let Some(group) = groups.get_mut(first) {
        change_at(group, second, change);
    }
}

/// Takes the row at two keys away, if there is one.
pub fn take_row<A: Key, B: Key + Drop, V: Drop>(
    groups: &mut BTreeMap<A, BTreeMap<B, V>>,
    first: &A,
    second: &B,
)
    ensures { pair_map A.cmp B.cmp groups.new
        ≡ fin.remove (pair_map A.cmp B.cmp groups.old) (first.now, second.now) }
{
    if let Some(group) = groups.get_mut(first) {
        group.remove(second);
    }
}

/// Pushes an item to the list at two keys.
pub fn push_item<A: Key, B: Key, T: Drop>(
    groups: &mut BTreeMap<A, BTreeMap<B, Vec<T>>>,
    first: &A,
    second: &B,
    item: T,
) -> Result<(), AllocError>
    requires { IsSome (fin.get (pair_map A.cmp B.cmp groups.old) (first.now, second.now)) }
    ensures ok { OnOk result (HasOneMore (pair_map A.cmp B.cmp groups.old)
        (pair_map A.cmp B.cmp groups.new) (first.now, second.now) item) }
    ensures err { OnErr result (HaveSameItems (pair_map A.cmp B.cmp groups.old)
        (pair_map A.cmp B.cmp groups.new)) }
{
    if let Some(group) = groups.get_mut(first) {
        if let Some(list) = group.get_mut(second) {
            list.push(item)?;
        }
    }
    Ok(())
}
