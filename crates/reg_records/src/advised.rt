//! Seats with the advice of their experts, as rows of the query that joins them.
ghost use Rattle.reg_core.specs.World.{seat_cmp};
ghost use Rattle.reg_records.specs.Advised.{advised_in};

use crate::advice::own_advice;
use crate::queue::Seat;
use crate::record::{Keyed, Record, in_form};
use reg_core::advice::Advice;
use sqlite::Row;
use std::alloc::{AllocError, Global};
use std::cmp::Ordering;

// The columns after those of the seat.
const VERDICT: usize = 3;

const TEXT: usize = 4;

/// That a request is assigned to an expert, with the expert's advice, if there is one.
#[derive(Drop)]
pub struct AdvisedSeat {
    pub seat: Seat,
    pub advice: Option<Advice>,
}

impl Record for AdvisedSeat {
    ghost of = { advised_in };

    fn read(alloc: Global, row: &Row) -> Result<Option<Self>, AllocError> {
        let seat = in_form!(Seat::read(alloc, row)?);
        let advice = in_form!(own_advice(alloc, row, VERDICT, TEXT)?);
        Ok(Some(AdvisedSeat { seat, advice }))
    }
}

impl Keyed for AdvisedSeat {
    ghost order = { λ a b. seat_cmp ((a.seat.account, a.seat.reference), a.seat.expert)
        ((b.seat.account, b.seat.reference), b.seat.expert) };

    fn compare(&self, other: &Self) -> Ordering {
        self.seat.compare(&other.seat)
    }
}
