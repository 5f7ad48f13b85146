//! Minutes of the IESG, by which values are renewed again, as rows of the table `minutes`.
ghost use Rattle.std.specs.Prelude.{◌≡◌};
ghost use Rattle.sqlite.specs.Values.{bound};
ghost use Rattle.reg_core.specs.World.{name_cmp};
ghost use Rattle.reg_records.specs.Minutes.{minute_in, minute_values};

use crate::column::{name, name_value, printable, printable_value};
use crate::record::{Keyed, Record, in_form};
use reg_core::text::{Account, Ref, Text};
use reg_ranges::formed::Formed;
use sqlite::Row;
use sqlite::types::ValueRef;
use std::alloc::{AllocError, Global};
use std::cmp::Ordering;

/// The minute that a renewal names. The request goes by its applicant's account and reference.
#[derive(Drop)]
pub struct Minute {
    pub account: Account,
    pub reference: Ref,
    pub minute: Text,
}

impl Record for Minute {
    ghost of = { minute_in };

    fn read(alloc: Global, row: &Row) -> Result<Option<Self>, AllocError> {
        let account = in_form!(name(row, 0));
        let reference = in_form!(name(row, 1));
        let minute = in_form!(printable(alloc, row, 2)?);
        Ok(Some(Minute {
            account,
            reference,
            minute,
        }))
    }
}

impl Keyed for Minute {
    ghost order = { λ a b. name_cmp (a.account, a.reference) (b.account, b.reference) };

    fn compare(&self, other: &Self) -> Ordering {
        let accounts = self.account.cmp(&other.account);
        accounts.then(self.reference.cmp(&other.reference))
    }
}

impl Formed for Minute {
    ghost use Rattle.reg_records.specs.Minutes.{is_minute};

    ghost has_form = { is_minute };

    fn formed(&self) {
        self.account.formed();
        self.reference.formed();
        self.minute.formed();
    }
}

impl Minute {
    /// The row that is written: account, reference, minute.
    pub fn values(&self) -> [ValueRef<'_>; 3]
        ensures { bound result ≡ minute_values self.now }
    {
        [
            name_value(&self.account),
            name_value(&self.reference),
            printable_value(&self.minute),
        ]
    }
}
