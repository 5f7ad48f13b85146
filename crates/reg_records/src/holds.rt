//! Marks of held entries as rows of the table `holds`.
ghost use Rattle.std.specs.Prelude.{◌≡◌};
ghost use Rattle.sqlite.specs.Values.{bound};
ghost use Rattle.reg_core.specs.World.{place_cmp};
ghost use Rattle.reg_records.specs.Holds.{hold_in, hold_values};

use crate::column::{name, name_value, number, number_value};
use crate::record::{Keyed, Record};
use reg_core::text::Name;
use reg_ranges::formed::Formed;
use sqlite::Row;
use sqlite::types::ValueRef;
use std::alloc::{AllocError, Global};
use std::cmp::Ordering;

/// That the entry of a registry at a value is held.
#[derive(Clone, Copy, PartialEq, Eq)]
pub struct Hold {
    pub registry: Name,
    pub value: u32,
}

impl Record for Hold {
    ghost of = { hold_in };

    fn read(_: Global, row: &Row) -> Result<Option<Self>, AllocError> {
        Ok(hold_in(row))
    }
}

impl Keyed for Hold {
    ghost order = { λ a b. place_cmp (a.registry, a.value) (b.registry, b.value) };

    fn compare(&self, other: &Self) -> Ordering {
        let registries = self.registry.cmp(&other.registry);
        registries.then(self.value.cmp(&other.value))
    }
}

impl Formed for Hold {
    ghost use Rattle.reg_records.specs.Holds.{is_hold};

    ghost has_form = { is_hold };

    #[tactic(auto, using(std::proofs::lemmas::Bool::Decides::nat_tests))]
    fn formed(&self) {
        self.registry.formed();
        let _value = self.value;
    }
}

impl Hold {
    /// The row that is written: registry, value.
    pub fn values(&self) -> [ValueRef<'_>; 2]
        ensures { bound result ≡ hold_values self.now }
    {
        [name_value(&self.registry), number_value(self.value)]
    }
}

fn hold_in(row: &Row) -> Option<Hold>
    ensures { result ≡ hold_in row.now }
{
    let registry = name(row, 0)?;
    let value = number(row, 1)?;
    Some(Hold { registry, value })
}
