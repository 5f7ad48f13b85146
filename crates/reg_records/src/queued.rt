//! Requests with an expert's own advice, as rows of the query that joins them.
ghost use Rattle.reg_core.specs.World.{name_cmp};
ghost use Rattle.reg_records.specs.Queued.{queued_in};

use crate::advice::own_advice;
use crate::record::{Keyed, Record, in_form};
use reg_core::advice::Advice;
use reg_core::request::Request;
use sqlite::Row;
use std::alloc::{AllocError, Global};
use std::cmp::Ordering;

// The columns after those of the request.
const VERDICT: usize = 25;

const TEXT: usize = 26;

/// A request that is assigned to an expert, with the expert's own advice, if there is one.
#[derive(Drop)]
pub struct QueuedRequest {
    pub request: Request,
    pub advice: Option<Advice>,
}

impl Record for QueuedRequest {
    ghost of = { queued_in };

    fn read(alloc: Global, row: &Row) -> Result<Option<Self>, AllocError> {
        let request = in_form!(Request::read(alloc, row)?);
        match own_advice(alloc, row, VERDICT, TEXT) {
            Ok(Some(advice)) => Ok(Some(QueuedRequest { request, advice })),
            Ok(None) => {
                drop(request);
                Ok(None)
            }
            Err(error) => {
                drop(request);
                Err(error)
            }
        }
    }
}

impl Keyed for QueuedRequest {
    ghost order = { λ a b. name_cmp (a.request.account, a.request.reference)
        (b.request.account, b.request.reference) };

    fn compare(&self, other: &Self) -> Ordering {
        self.request.compare(&other.request)
    }
}
