//! Registries by their names.
ghost use Rattle.std.specs.Prelude.{◌≡◌, IfOk};
ghost use Rattle.std.specs.FinMap as fin;
ghost use Rattle.reg_maps.specs.Maps.{text_cmp, finite_map};

use crate::maps::{push_rows, row_at};
use reg_core::rows::Rows;
use reg_core::text::Name;
use reg_ranges::table::RangeTable;
use std::alloc::{AllocError, Global};
use std::collections::BTreeMap;

/// The ranges of registries by name.
pub type Registries = BTreeMap<Name, RangeTable>;

/// All names in order.
pub fn names_in(alloc: Global, registries: &Registries) -> Result<Rows<Name>, AllocError>
    ensures { IfOk result (λ names. names ≡ fin.keys (finite_map text_cmp registries.now)) }
{
    let mut names = Vec::with_capacity(alloc, registries.len())?;
    push_rows(&mut names, registries, |name, _| Ok(*name))?;
    Ok(Rows::from_vec(names))
}

/// The ranges of the registry of a name.
pub fn table_in(registries: &Registries, name: &Name) -> Result<Option<RangeTable>, AllocError>
    ensures { IfOk result (λ table. table
        ≡ fin.get (finite_map text_cmp registries.now) name.now) }
{
    row_at(registries, name).cloned()
}
