//! Sets of values, one for each registry.
ghost use Rattle.std.specs.Prelude.{◌≡◌, false, OnOk, OnErr};
ghost use Rattle.reg_vacancies.specs.Sets.{AreSameTests, GainsValue, is_member};

use crate::runs::Runs;
use reg_core::text::Name;
use std::alloc::{AllocError, Global};
use std::collections::BTreeMap;

/// Sets of values by registry.
pub type Sets = BTreeMap<Name, Runs>;

/// Adds a value of a registry. Only a value that is not there can fail.
pub fn put_value(
    alloc: Global,
    sets: &mut Sets,
    registry: &Name,
    value: u32,
) -> Result<(), AllocError>
    ensures ok { OnOk result (GainsValue (is_member sets.old) (is_member sets.new) registry.now value) }
    ensures err { OnErr result (AreSameTests (is_member sets.old) (is_member sets.new)) }
    ensures absent { OnErr result (is_member sets.old registry.now value ≡ false) }
{
    match sets.get_mut(registry) {
        Some(runs) => {
            runs.insert(value)?;
        }
        None => {
            let mut runs = Runs::new(alloc);
            runs.insert(value)?;
            sets.insert(*registry, runs)?;
        }
    }
    Ok(())
}
