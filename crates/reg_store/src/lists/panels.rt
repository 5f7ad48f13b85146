//! The experts to whom requests are assigned, by requests.
ghost use Rattle.std.specs.Prelude.{◌≡◌, map, IfOk};
ghost use Rattle.std.specs.FinMap as fin;
ghost use Rattle.reg_core.specs.File.{seats_of};
ghost use Rattle.reg_store.specs.Lists.Panels.{seats};

use crate::groups::list_group;
use crate::lists::requests::RequestName;
use reg_core::rows::Rows;
use reg_core::text::Account;
use std::alloc::{AllocError, Global};
use std::collections::BTreeMap;

/// The experts to whom one request is assigned.
pub type Panel = BTreeMap<Account, ()>;

/// Experts by request.
pub type Panels = BTreeMap<RequestName, Panel>;

/// The experts to whom a request is assigned, in order.
pub fn experts_in(
    alloc: Global,
    panels: &Panels,
    name: &RequestName,
) -> Result<Rows<Account>, AllocError>
    ensures { IfOk result (λ experts. experts ≡
        map (λ e. e.0.1) (fin.entries (seats_of name.now (seats panels.now)))) }
{
    Ok(Rows::from_vec(list_group(alloc, panels, name, |expert, _| Ok(*expert))?))
}
