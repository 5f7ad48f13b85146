//! What an audit keeps of rows, as it grows.
ghost use Rattle.std.specs.Prelude.{◌≡◌, ◌++◌, [], ◌∷◌, true, Some, Contains, IfOk, IsTrue, OnOk, OnErr};
ghost use Rattle.std.specs.BTreeMap as tree;
ghost use Rattle.std.specs.BTreeSet as set;
ghost use Rattle.std.specs.FinMap as fin;
ghost use Rattle.reg_blocks.specs.Block.{leading_24};
ghost use Rattle.reg_blocks.specs.Pool.{is_pool_prefix};
ghost use Rattle.reg_core.specs.declared.entry.Registration.{Registration};
ghost use Rattle.reg_core.specs.declared.holding.Holder.{Holder};
ghost use Rattle.reg_vacancies.specs.Vacancies.{AreVacancies, OfAll};

use reg_blocks::block::Block;
use reg_core::text::Name;
use reg_ranges::range::Range;
use reg_vacancies::vacancies::Vacancies;
use std::alloc::AllocError;
use std::collections::{BTreeMap, BTreeSet};

/// What tells that memory was refused. Over a type parameter nothing else tells it, so a clause that
/// asks for it refuses a want of memory that was made up.
pub trait Grows {
    /// Memory was refused where something was to grow.
    ghost Ungrown: { Type 0 };

    /// Adds a row or replaces the one at its key.
    fn set_row<K: Ord + Drop, V: Drop>(
        map: &mut BTreeMap<K, V>,
        key: K,
        row: V,
    ) -> Result<(), AllocError>
        ensures ok { OnOk result (tree.Updates K.cmp map.old map.new key (Some row)) }
        ensures err { OnErr result (tree.IsUnchanged map.old map.new) }
        ensures refused { OnErr result Ungrown };

    /// Adds a key; one that is there changes nothing.
    fn add_key<K: Ord + Drop>(keys: &mut BTreeSet<K>, key: K) -> Result<(), AllocError>
        ensures ok { OnOk result (set.Updates K.cmp keys.old keys.new key true) }
        ensures err { OnErr result (set.IsUnchanged keys.old keys.new) }
        ensures refused { OnErr result Ungrown };

    /// Puts a value behind others.
    fn push<T: Drop>(all: &mut Vec<T>, value: T) -> Result<(), AllocError>
        ensures ok { OnOk result (all.new.items ≡ all.old.items ++ value ∷ []) }
        ensures refused { OnErr result Ungrown };

    /// An equal range.
    fn copy_range(range: &Range) -> Result<Range, AllocError>
        ensures ok { IfOk result (λ copy. copy ≡ range.now) }
        ensures refused { OnErr result Ungrown };

    /// Takes the value of an entry, which may have been there.
    fn take_value(free: &mut Vacancies, registry: &Name, value: u32) -> Result<(), AllocError>
        ensures ok { OnOk result (OfAll free.old (λ entries pool blocks. (row : Registration)
            → AreVacancies free.new (fin.insert entries (registry.now, value) row) pool blocks)) }
        ensures refused { OnErr result Ungrown };

    /// Adds a prefix that may be in a pool; one that is there changes nothing.
    fn add_prefix(free: &mut Vacancies, prefix: u32) -> Result<(), AllocError>
        requires { IsTrue (is_pool_prefix prefix) }
        ensures ok { OnOk result (OfAll free.old (λ entries pool blocks.
            AreVacancies free.new entries (fin.insert pool prefix tt) blocks)) }
        ensures refused { OnErr result Ungrown };

    /// Takes the place of a block of the pool.
    fn give(free: &mut Vacancies, block: Block) -> Result<(), AllocError>
        ensures ok { OnOk result (OfAll free.old (λ entries pool blocks.
            Contains (fin.keys pool) (leading_24 block) → (holder : Holder)
            → AreVacancies free.new entries pool (fin.insert blocks block holder))) }
        ensures refused { OnErr result Ungrown };
}

/// Each type: memory is refused where the library's own growth, or that of what is free, is refused it.
impl<S> Grows for S {
    ghost Ungrown = { Unit {0} };

    fn set_row<K: Ord + Drop, V: Drop>(
        map: &mut BTreeMap<K, V>,
        key: K,
        row: V,
    ) -> Result<(), AllocError> {
        map.insert(key, row)?;
        Ok(())
    }

    fn add_key<K: Ord + Drop>(keys: &mut BTreeSet<K>, key: K) -> Result<(), AllocError> {
        keys.insert(key)?;
        Ok(())
    }

    fn push<T: Drop>(all: &mut Vec<T>, value: T) -> Result<(), AllocError> {
        all.push(value)?;
        Ok(())
    }

    fn copy_range(range: &Range) -> Result<Range, AllocError> {
        range.copy()
    }

    fn take_value(free: &mut Vacancies, registry: &Name, value: u32) -> Result<(), AllocError> {
        free.take_value(registry, value)
    }

    fn add_prefix(free: &mut Vacancies, prefix: u32) -> Result<(), AllocError> {
        free.add_prefix(prefix)
    }

    fn give(free: &mut Vacancies, block: Block) -> Result<(), AllocError> {
        free.give(block)
    }
}
