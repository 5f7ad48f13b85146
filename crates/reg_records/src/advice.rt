//! Advice as rows of the table `advice`.
ghost use Rattle.std.specs.Prelude.{◌≡◌, IfOk};
ghost use Rattle.sqlite.specs.Order.{column};
ghost use Rattle.sqlite.specs.Values.{bound};
ghost use Rattle.reg_core.specs.World.{seat_cmp};
ghost use Rattle.reg_records.specs.Advice.{advice_in, advice_values, own_advice_in};

use crate::column::{is_null, printable, printable_value, word, word_value};
use crate::queue::Seat;
use crate::record::{Keyed, Record, in_form};
use reg_core::advice::Advice;
use reg_ranges::formed::Formed;
use sqlite::Row;
use sqlite::types::ValueRef;
use std::alloc::{AllocError, Global};
use std::cmp::Ordering;

/// An advice with the seat of its expert.
#[derive(Drop)]
pub struct ExpertAdvice {
    pub seat: Seat,
    pub advice: Advice,
}

impl Record for ExpertAdvice {
    ghost of = { advice_in };

    fn read(alloc: Global, row: &Row) -> Result<Option<Self>, AllocError> {
        let seat = in_form!(Seat::read(alloc, row)?);
        let verdict = in_form!(word(row, 3));
        let text = in_form!(printable(alloc, row, 4)?);
        Ok(Some(ExpertAdvice {
            seat,
            advice: Advice { verdict, text },
        }))
    }
}

impl Keyed for ExpertAdvice {
    ghost order = { λ a b. seat_cmp ((a.seat.account, a.seat.reference), a.seat.expert)
        ((b.seat.account, b.seat.reference), b.seat.expert) };

    fn compare(&self, other: &Self) -> Ordering {
        self.seat.compare(&other.seat)
    }
}

impl Formed for ExpertAdvice {
    ghost use Rattle.reg_records.specs.Advice.{is_expert_advice};

    ghost has_form = { is_expert_advice };

    fn formed(&self) {
        self.seat.formed();
        self.advice.formed();
    }
}

impl ExpertAdvice {
    /// The row that is written: account, reference, expert, verdict, text.
    pub fn values(&self) -> [ValueRef<'_>; 5]
        ensures { bound result ≡ advice_values self.now }
    {
        let [account, reference, expert] = self.seat.values();
        [
            account,
            reference,
            expert,
            word_value(&self.advice.verdict),
            printable_value(&self.advice.text),
        ]
    }
}

/// The advice of which a row has the verdict and the text in these columns: none where both are
/// NULL.
pub fn own_advice(
    alloc: Global,
    row: &Row,
    verdict: usize,
    text: usize,
) -> Result<Option<Option<Advice>>, AllocError>
    ensures { IfOk result (λ advice. advice
        ≡ own_advice_in (column row.now verdict) (column row.now text)) }
{
    if is_null(row, verdict) && is_null(row, text) {
        return Ok(Some(None));
    }
    let verdict = in_form!(word(row, verdict));
    let text = in_form!(printable(alloc, row, text)?);
    Ok(Some(Some(Advice { verdict, text })))
}
