//! The values of registries that have entries.
ghost use Rattle.std.specs.Prelude.{◌≡◌, ◌↔◌, None, OnOk, OnErr};
ghost use Rattle.std.specs.FinMap as fin;
ghost use Rattle.reg_ranges.specs.FreeValues.{least_value};
ghost use Rattle.reg_core.specs.LeastFree.{values_in};
ghost use Rattle.reg_core.specs.declared.entry.Registration.{Registration};

use crate::least::least_free_of;
use crate::runs::Runs;
use crate::sets::{Sets, put_value};
use reg_core::text::Name;
use reg_ranges::policy::Policy;
use reg_ranges::table::RangeTable;
use std::alloc::{AllocError, Global};
use std::collections::BTreeMap;

/// The values of registries that have entries, kept beside the entries as a set for each registry.
/// So no entry is looked at to find the least value without one.
#[derive(Drop)]
pub struct TakenValues {
    alloc: Global,
    sets: Sets,
}

impl TakenValues {
    ghost use Rattle.reg_vacancies.specs.Values.{AreTakenBy, Entries};

    /// Those of no entry. It takes no memory.
    pub fn new(alloc: Global) -> Self
        ensures { AreTakenBy result fin.empty }
    {
        TakenValues {
            alloc,
            sets: BTreeMap::new(alloc),
        }
    }

    /// The least value of a registry with these ranges that lies under the policy and has no
    /// entry, if there is such a value.
    pub fn least(&self, registry: &Name, table: &RangeTable, policy: Policy) -> Option<u32>
        ensures { (entries : Entries) → AreTakenBy self.now entries
            → result ≡ least_value table.now policy (values_in registry.now entries) }
    {
        match self.sets.get(registry) {
            Some(taken) => least_free_of(table, policy, taken),
            None => least_free_of(table, policy, &Runs::new(self.alloc)),
        }
    }

    /// Takes the value of an entry, which may have been there. Only a value that has none can fail.
    pub fn take(&mut self, registry: &Name, value: u32) -> Result<(), AllocError>
        ensures ok { OnOk result ((entries : Entries) → AreTakenBy self.old entries
            → (row : Registration)
            → AreTakenBy self.new (fin.insert entries (registry.now, value) row)) }
        ensures err { OnErr result ((entries : Entries)
            → AreTakenBy self.new entries ↔ AreTakenBy self.old entries) }
        ensures absent { OnErr result ((entries : Entries) → AreTakenBy self.old entries
            → fin.get entries (registry.now, value) ≡ None) }
    {
        put_value(self.alloc, &mut self.sets, registry, value)
    }
}
