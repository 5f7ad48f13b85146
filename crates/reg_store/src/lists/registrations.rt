//! The entries of registries, and the values that have them.
ghost use Rattle.std.specs.Prelude.{◌≡◌, OnOk, OnErr};
ghost use Rattle.std.specs.FinMap as fin;
ghost use Rattle.reg_maps.specs.Maps.{update};
ghost use Rattle.reg_ranges.specs.FreeValues.{least_value};
ghost use Rattle.reg_core.specs.Entry.{registration_in, with_hold};
ghost use Rattle.reg_core.specs.LeastFree.{values_in};
ghost use Rattle.reg_vacancies.specs.Values.{AreTakenBy};
ghost use Rattle.reg_store.specs.Lists.Entries.{all_entries};

use crate::groups::take_row;
use crate::lists::entries::{Entries, put_entry, set_hold};
use reg_core::entry::Entry;
use reg_core::text::Name;
use reg_ranges::policy::Policy;
use reg_ranges::table::RangeTable;
use reg_vacancies::values::TakenValues;
use std::alloc::{AllocError, Global};
use std::collections::BTreeMap;

/// The entries of registries by value, and beside them the values that have entries. So no entry
/// is looked at to find the least value without one.
#[derive(Drop)]
pub struct Registrations {
    entries: Entries,
    taken: TakenValues,
    ghost in_step: { AreTakenBy taken (all_entries entries) },
}

impl Registrations {
    ghost use Rattle.reg_store.specs.Lists.Registrations.{entries_held};

    /// No entry.
    pub fn new(alloc: Global) -> Self
        ensures { entries_held result ≡ fin.empty }
    {
        Registrations {
            entries: BTreeMap::new(alloc),
            taken: TakenValues::new(alloc),
        }
    }

    /// All entries.
    pub fn entries(&self) -> &Entries
        ensures { result.now ≡ self.now.entries }
    {
        &self.entries
    }

    /// The least value of a registry with these ranges that lies under the policy and has no
    /// entry, if there is such a value.
    pub fn least(&self, registry: &Name, table: &RangeTable, policy: Policy) -> Option<u32>
        ensures { result ≡ least_value table.now policy
            (values_in registry.now (entries_held self.now)) }
    {
        self.taken.least(registry, table, policy)
    }

    /// Adds an entry, or replaces the one at its registry and value.
    pub fn put(&mut self, alloc: Global, entry: Entry) -> Result<(), AllocError>
        ensures ok { OnOk result (entries_held self.new ≡ fin.insert (entries_held self.old)
            (entry.registry, entry.value) (registration_in entry)) }
        ensures err { OnErr result (entries_held self.new ≡ entries_held self.old) }
    {
        put_both(alloc, &mut self.entries, &mut self.taken, entry)
    }

    /// Says of the entry of a registry at a value, if it is there, whether it is held.
    pub fn mark(&mut self, registry: &Name, value: u32, held: bool)
        ensures { entries_held self.new
            ≡ update (entries_held self.old) (registry.now, value) (with_hold held) }
    {
        set_hold(&mut self.entries, registry, value, held);
    }
}

// The entry and its value, or, where there is no memory for the value, neither. Only a value that
// is not taken can lack memory: so the entry that is taken away again has replaced none.
fn put_both(
    alloc: Global,
    entries: &mut Entries,
    taken: &mut TakenValues,
    entry: Entry,
) -> Result<(), AllocError>
    requires { AreTakenBy taken.old (all_entries entries.old) }
    ensures in_step { AreTakenBy taken.new (all_entries entries.new) }
    ensures ok { OnOk result (all_entries entries.new ≡ fin.insert (all_entries entries.old)
        (entry.registry, entry.value) (registration_in entry)) }
    ensures err { OnErr result (all_entries entries.new ≡ all_entries entries.old) }
{
    let registry = entry.registry;
    let value = entry.value;
    put_entry(alloc, entries, entry)?;
    match taken.take(&registry, value) {
        Ok(()) => Ok(()),
        Err(error) => {
            take_row(entries, &registry, &value);
            Err(error)
        }
    }
}
