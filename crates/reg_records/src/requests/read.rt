//! Requests as records of their table.
ghost use Rattle.reg_core.specs.World.{name_cmp};
ghost use Rattle.reg_records.specs.Requests.Reading.{request_in};

use crate::column;
use crate::record::{Keyed, Record, in_form};
use crate::requests::asks::ask;
use crate::requests::states::state;
use crate::requests::{ACCOUNT, REFERENCE};
use reg_core::request::Request;
use sqlite::Row;
use std::alloc::{AllocError, Global};
use std::cmp::Ordering;

impl Record for Request {
    ghost of = { request_in };

    #[tactic(auto, unfolding(crate::specs::Requests::Reading::request_in))]
    fn read(alloc: Global, row: &Row) -> Result<Option<Self>, AllocError> {
        let account = in_form!(column::name(row, ACCOUNT));
        let reference = in_form!(column::name(row, REFERENCE));
        let ask = in_form!(ask(alloc, row)?);
        match state(alloc, row, &ask) {
            Ok(Some(state)) => Ok(Some(Request {
                account,
                reference,
                ask,
                state,
            })),
            Ok(None) => {
                drop(ask);
                Ok(None)
            }
            Err(error) => {
                drop(ask);
                Err(error)
            }
        }
    }
}

impl Keyed for Request {
    ghost order = { λ a b. name_cmp (a.account, a.reference) (b.account, b.reference) };

    fn compare(&self, other: &Self) -> Ordering {
        let accounts = self.account.cmp(&other.account);
        accounts.then(self.reference.cmp(&other.reference))
    }
}
