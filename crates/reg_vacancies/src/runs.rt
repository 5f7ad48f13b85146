//! Sets of numbers of 32 bits.
ghost use Rattle.reg_vacancies.specs.ValueSpans.{Apart};

use crate::value_spans::{Spans, add, is_within, next_free};
use std::alloc::{AllocError, Global};
use std::collections::BTreeMap;

/// A set of numbers, kept as its runs: which number is free next costs a lookup.
#[derive(Drop)]
pub struct Runs {
    // From the first to the last number of each run. No two runs touch.
    spans: BTreeMap<u32, u32>,
    ghost apart: { Apart spans },
}

#[tactic(auto, unfolding(crate::specs::Runs::has))]
impl Runs {
    ghost use Rattle.std.specs.Prelude.{◌≡◌, ℕ, ◌||◌, false, nat_eq, OnOk, OnErr};
    ghost use Rattle.reg_vacancies.specs.Runs.{has, IsNextFree};

    /// The empty set.
    pub fn new(alloc: Global) -> Self
        ensures { (n : ℕ) → has result n ≡ false }
    {
        Runs {
            spans: BTreeMap::new(alloc),
        }
    }

    /// Adds a number. Only a number that is not in the set can fail.
    pub fn insert(&mut self, value: u32) -> Result<(), AllocError>
        ensures ok { OnOk result ((n : ℕ) → has self.new n ≡ (nat_eq n value || has self.old n)) }
        ensures err { OnErr result ((n : ℕ) → has self.new n ≡ has self.old n) }
        ensures absent { OnErr result (has self.old value ≡ false) }
    {
        add(&mut self.spans, value)
    }

    /// Whether a number is in the set.
    pub fn contains(&self, value: u32) -> bool
        ensures { result ≡ has self.now value }
    {
        is_within(&self.spans, value)
    }

    /// The least number from one on that is not in the set, or none where each number from it on
    /// is.
    pub fn next_free(&self, from: u32) -> Option<u32>
        ensures { IsNextFree (has self.now) from result }
    {
        next_free(&self.spans, from)
    }
}
