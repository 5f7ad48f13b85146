//! Prefixes as rows of the table `pool`.
ghost use Rattle.std.specs.Prelude.{◌≡◌};
ghost use Rattle.std.specs.Ordering.{nat_cmp};
ghost use Rattle.sqlite.specs.Values.{bound};
ghost use Rattle.reg_records.specs.Pool.{prefix_in, prefix_values};

use crate::column::{number, number_value};
use crate::record::{Keyed, Record};
use reg_ranges::formed::Formed;
use sqlite::Row;
use sqlite::types::ValueRef;
use std::alloc::{AllocError, Global};
use std::cmp::Ordering;
use std::marker::Model;

/// What a row of the pool has: any number of 32 bits. Whether it may be in a pool is not looked at.
#[derive(Clone, Copy, Debug, PartialEq, Eq)]
pub struct Prefix {
    number: u32,
}

impl Model for Prefix {
    ghost use Rattle.std.specs.Prelude.{ℕ};

    ghost Value = { ℕ };

    ghost view = { λ prefix. prefix.number };

    ghost inverse = { λ number. record { number = number } };
}

impl Record for Prefix {
    ghost of = { prefix_in };

    fn read(_: Global, row: &Row) -> Result<Option<Self>, AllocError> {
        Ok(number(row, 0).map(Prefix::new))
    }
}

impl Keyed for Prefix {
    ghost order = { nat_cmp };

    fn compare(&self, other: &Self) -> Ordering {
        self.number.cmp(&other.number)
    }
}

impl Formed for Prefix {
    ghost use Rattle.reg_records.specs.Pool.{is_prefix};

    ghost has_form = { is_prefix };

    #[tactic(auto, using(std::proofs::lemmas::Bool::Decides::nat_tests))]
    fn formed(&self) {
        let _number = self.number;
    }
}

impl Prefix {
    /// The prefix that is this number.
    pub fn new(number: u32) -> Self
        ensures { result ≡ number }
    {
        Prefix { number }
    }

    /// The number.
    pub fn number(self) -> u32
        ensures { result ≡ self }
    {
        self.number
    }

    /// The row that is written: prefix.
    pub fn values(&self) -> [ValueRef<'static>; 1]
        ensures { bound result ≡ prefix_values self.now }
    {
        [number_value(self.number)]
    }
}
