//! Seats in queues as rows of the table `queue`.
ghost use Rattle.std.specs.Prelude.{◌≡◌};
ghost use Rattle.sqlite.specs.Values.{bound};
ghost use Rattle.reg_core.specs.World.{seat_cmp};
ghost use Rattle.reg_records.specs.Queue.{seat_in, seat_values};

use crate::column::{name, name_value};
use crate::record::{Keyed, Record};
use reg_core::text::{Account, Ref};
use reg_ranges::formed::Formed;
use sqlite::Row;
use sqlite::types::ValueRef;
use std::alloc::{AllocError, Global};
use std::cmp::Ordering;

/// That a request is assigned to an expert. The request goes by its applicant's account and
/// reference.
#[derive(Clone, Copy, PartialEq, Eq)]
pub struct Seat {
    pub account: Account,
    pub reference: Ref,
    pub expert: Account,
}

impl Record for Seat {
    ghost of = { seat_in };

    fn read(_: Global, row: &Row) -> Result<Option<Self>, AllocError> {
        Ok(seat_in(row))
    }
}

impl Keyed for Seat {
    ghost order = { λ a b. seat_cmp ((a.account, a.reference), a.expert)
        ((b.account, b.reference), b.expert) };

    fn compare(&self, other: &Self) -> Ordering {
        let accounts = self.account.cmp(&other.account);
        let names = accounts.then(self.reference.cmp(&other.reference));
        names.then(self.expert.cmp(&other.expert))
    }
}

impl Formed for Seat {
    ghost use Rattle.reg_records.specs.Queue.{is_seat};

    ghost has_form = { is_seat };

    fn formed(&self) {
        self.account.formed();
        self.reference.formed();
        self.expert.formed();
    }
}

impl Seat {
    /// The row that is written: account, reference, expert.
    pub fn values(&self) -> [ValueRef<'_>; 3]
        ensures { bound result ≡ seat_values self.now }
    {
        [
            name_value(&self.account),
            name_value(&self.reference),
            name_value(&self.expert),
        ]
    }
}

fn seat_in(row: &Row) -> Option<Seat>
    ensures { result ≡ seat_in row.now }
{
    let account = name(row, 0)?;
    let reference = name(row, 1)?;
    let expert = name(row, 2)?;
    Some(Seat {
        account,
        reference,
        expert,
    })
}
