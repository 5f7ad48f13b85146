//! Agents of principals as rows of the table `agents`.
ghost use Rattle.std.specs.Prelude.{◌≡◌};
ghost use Rattle.sqlite.specs.Values.{bound};
ghost use Rattle.reg_core.specs.World.{link_cmp};
ghost use Rattle.reg_records.specs.Links.{link_in, link_values};

use crate::column::{name, name_value};
use crate::record::{Keyed, Record};
use reg_core::text::Account;
use reg_ranges::formed::Formed;
use sqlite::Row;
use sqlite::types::ValueRef;
use std::alloc::{AllocError, Global};
use std::cmp::Ordering;

/// That an account may read the requests of another, its principal.
#[derive(Clone, Copy, PartialEq, Eq)]
pub struct Link {
    pub principal: Account,
    pub agent: Account,
}

impl Record for Link {
    ghost of = { link_in };

    fn read(_: Global, row: &Row) -> Result<Option<Self>, AllocError> {
        Ok(link_in(row))
    }
}

impl Keyed for Link {
    ghost order = { λ a b. link_cmp (a.principal, a.agent) (b.principal, b.agent) };

    fn compare(&self, other: &Self) -> Ordering {
        let principals = self.principal.cmp(&other.principal);
        principals.then(self.agent.cmp(&other.agent))
    }
}

impl Formed for Link {
    ghost use Rattle.reg_records.specs.Links.{is_link};

    ghost has_form = { is_link };

    fn formed(&self) {
        self.principal.formed();
        self.agent.formed();
    }
}

impl Link {
    /// The row that is written: principal, agent.
    pub fn values(&self) -> [ValueRef<'_>; 2]
        ensures { bound result ≡ link_values self.now }
    {
        [name_value(&self.principal), name_value(&self.agent)]
    }
}

fn link_in(row: &Row) -> Option<Link>
    ensures { result ≡ link_in row.now }
{
    let principal = name(row, 0)?;
    let agent = name(row, 1)?;
    Some(Link { principal, agent })
}
