//! Registries as rows of the table `registries`.
ghost use Rattle.std.specs.Prelude.{◌≡◌};
ghost use Rattle.sqlite.specs.Values.{bound};
ghost use Rattle.reg_maps.specs.Maps.{text_cmp};
ghost use Rattle.reg_records.specs.Registries.{registry_in, registry_values};

use crate::column::{name, name_value, number, number_value};
use crate::record::{Keyed, Record};
use reg_core::text::Name;
use reg_ranges::formed::Formed;
use sqlite::Row;
use sqlite::types::ValueRef;
use std::alloc::{AllocError, Global};
use std::cmp::Ordering;

/// A registry without its ranges: its name and the largest of its values.
#[derive(Clone, Copy, PartialEq, Eq)]
pub struct Registry {
    pub name: Name,
    pub max: u32,
}

impl Record for Registry {
    ghost of = { registry_in };

    fn read(_: Global, row: &Row) -> Result<Option<Self>, AllocError> {
        Ok(registry_in(row))
    }
}

impl Keyed for Registry {
    ghost order = { λ a b. text_cmp a.name b.name };

    fn compare(&self, other: &Self) -> Ordering {
        self.name.cmp(&other.name)
    }
}

impl Formed for Registry {
    ghost use Rattle.reg_records.specs.Registries.{is_registry};

    ghost has_form = { is_registry };

    #[tactic(auto, using(std::proofs::lemmas::Bool::Decides::nat_tests))]
    fn formed(&self) {
        self.name.formed();
        let _max = self.max;
    }
}

impl Registry {
    /// The row that is written: name, max.
    pub fn values(&self) -> [ValueRef<'_>; 2]
        ensures { bound result ≡ registry_values self.now }
    {
        [name_value(&self.name), number_value(self.max)]
    }
}

fn registry_in(row: &Row) -> Option<Registry>
    ensures { result ≡ registry_in row.now }
{
    let name = name(row, 0)?;
    let max = number(row, 1)?;
    Some(Registry { name, max })
}
