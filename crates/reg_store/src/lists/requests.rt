//! Requests by the accounts of their applicants, and then by reference.
ghost use Rattle.std.specs.Prelude.{◌≡◌, IfOk, option_map};
ghost use Rattle.std.specs.FinMap as fin;
ghost use Rattle.reg_maps.specs.Maps.{text_cmp, same_text, only_if, select, update};
ghost use Rattle.reg_maps.specs.Groups.{pair_map};
ghost use Rattle.reg_core.specs.Request.{request_row as request_of, request_rows};
ghost use Rattle.reg_core.specs.World.{in_state};

use crate::groups::{change_row, list_group, row_in};
use crate::maps::push_rows;
use reg_core::request::{Case, Request, State};
use reg_core::rows::Rows;
use reg_core::text::{Account, Ref};
use std::alloc::{AllocError, Global};
use std::collections::BTreeMap;

/// The name of a request: its applicant's account, and the applicant's reference.
pub type RequestName = (Account, Ref);

/// Requests by account, and then by reference.
pub type Requests = BTreeMap<Account, BTreeMap<Ref, Case>>;

/// The request of an account under a reference.
pub fn request_in(
    requests: &Requests,
    account: &Account,
    reference: &Ref,
) -> Result<Option<Request>, AllocError>
    ensures { IfOk result (λ row. row ≡ option_map (request_of (account.now, reference.now))
        (fin.get (pair_map text_cmp text_cmp requests.now) (account.now, reference.now))) }
{
    match row_in(requests, account, reference) {
        Some(case) => Ok(Some(request_row(account, reference, case)?)),
        None => Ok(None),
    }
}

/// All requests of an account, by reference.
pub fn own_rows(
    alloc: Global,
    requests: &Requests,
    account: &Account,
) -> Result<Rows<Request>, AllocError>
    ensures { IfOk result (λ rows. rows ≡ request_rows (select
        (λ name case. only_if (same_text name.0 account.now) case)
        (pair_map text_cmp text_cmp requests.now))) }
{
    Ok(Rows::from_vec(list_group(
        alloc,
        requests,
        account,
        |reference, case| request_row(account, reference, case),
    )?))
}

/// All requests, by account and then by reference.
pub fn all_rows(alloc: Global, requests: &Requests) -> Result<Rows<Request>, AllocError>
    ensures { IfOk result (λ rows. rows ≡ request_rows (pair_map text_cmp text_cmp requests.now)) }
{
    let mut rows = Vec::new(alloc);
    for (account, group) in requests {
        let _group = group.len();
        push_rows(&mut rows, group, |reference, case| {
            request_row(account, reference, case)
        })?;
    }
    Ok(Rows::from_vec(rows))
}

/// A request with its name.
pub fn request_row(account: &Account, reference: &Ref, case: &Case) -> Result<Request, AllocError>
    ensures { IfOk result (λ row. row ≡ request_of (account.now, reference.now) case.now) }
{
    Ok(Request {
        account: *account,
        reference: *reference,
        ask: case.ask.copy()?,
        state: case.state.copy()?,
    })
}

/// Puts the request of an account under a reference in a state, if it is there.
pub fn set_state(requests: &mut Requests, account: &Account, reference: &Ref, state: State)
    ensures { pair_map text_cmp text_cmp requests.new ≡ update
        (pair_map text_cmp text_cmp requests.old) (account.now, reference.now) (in_state state) }
{
    change_row(requests, account, reference, |case| case.state = state);
}
