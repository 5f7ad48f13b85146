//! Requests with their experts and all advice on them.
ghost use Rattle.std.specs.Prelude.{◌≡◌, IfOk, map, option_map};
ghost use Rattle.std.specs.FinMap as fin;
ghost use Rattle.reg_maps.specs.Maps.{text_cmp, only_if};
ghost use Rattle.reg_maps.specs.Groups.{pair_map};
ghost use Rattle.reg_core.specs.File.{file, opinion, seats_of, waiting_files};
ghost use Rattle.reg_core.specs.Request.{is_pending};
ghost use Rattle.reg_core.specs.World.{name_cmp};
ghost use Rattle.reg_store.specs.Lists.File.{advice_world, review_world};
ghost use Rattle.reg_store.specs.Lists.Panels.{seats};

use crate::groups::row_in;
use crate::lists::opinions::{Opinions, opinions_in};
use crate::lists::panels::{Panels, experts_in};
use crate::lists::requests::{RequestName, Requests, request_row};
use crate::maps::push_some;
use reg_core::advice::Opinion;
use reg_core::case_file::CaseFile;
use reg_core::request::{Case, State};
use reg_core::rows::Rows;
use reg_core::text::{Account, Ref};
use std::alloc::{AllocError, Global};

/// The request of an account under a reference, with its experts and all advice on it.
pub fn file_in(
    alloc: Global,
    requests: &Requests,
    panels: &Panels,
    opinions: &Opinions,
    account: &Account,
    reference: &Ref,
) -> Result<Option<CaseFile>, AllocError>
    ensures { IfOk result (λ row. row ≡ option_map
        (file (review_world requests.now panels.now opinions.now) (account.now, reference.now))
        (fin.get (pair_map text_cmp text_cmp requests.now) (account.now, reference.now))) }
{
    match row_in(requests, account, reference) {
        Some(case) => {
            let name = (*account, *reference);
            Ok(Some(case_file(alloc, panels, opinions, &name, case)?))
        }
        None => Ok(None),
    }
}

/// The requests that wait, with their experts and all advice on them, by account and then by
/// reference.
pub fn waiting_in(
    alloc: Global,
    requests: &Requests,
    panels: &Panels,
    opinions: &Opinions,
) -> Result<Rows<CaseFile>, AllocError>
    ensures { IfOk result (λ files. files
        ≡ waiting_files (review_world requests.now panels.now opinions.now)) }
{
    let mut files = Vec::new(alloc);
    for (account, group) in requests {
        let _group = group.len();
        push_some(&mut files, group, |reference, case| {
            let name = (*account, *reference);
            waiting_file(alloc, panels, opinions, &name, case)
        })?;
    }
    Ok(Rows::from_vec(files))
}

// The file of a request, if it waits.
fn waiting_file(
    alloc: Global,
    panels: &Panels,
    opinions: &Opinions,
    name: &RequestName,
    case: &Case,
) -> Result<Option<CaseFile>, AllocError>
    ensures { IfOk result (λ row. row ≡ only_if (is_pending case.now.state)
        (file (advice_world panels.now opinions.now) name.now case.now)) }
{
    match &case.state {
        State::Pending => Ok(Some(case_file(alloc, panels, opinions, name, case)?)),
        State::Approved(_) | State::Declined(_) | State::Withdrawn => Ok(None),
    }
}

// A request with its experts and all advice on it.
fn case_file(
    alloc: Global,
    panels: &Panels,
    opinions: &Opinions,
    name: &RequestName,
    case: &Case,
) -> Result<CaseFile, AllocError>
    ensures { IfOk result (λ row. row
        ≡ file (advice_world panels.now opinions.now) name.now case.now) }
{
    let request = request_row(&name.0, &name.1, case)?;
    let (experts, advice) = review_in(alloc, panels, opinions, name)?;
    Ok(CaseFile {
        request,
        experts,
        advice,
    })
}

// The experts to whom a request is assigned, and all advice on it.
fn review_in(
    alloc: Global,
    panels: &Panels,
    opinions: &Opinions,
    name: &RequestName,
) -> Result<(Rows<Account>, Rows<Opinion>), AllocError>
    ensures experts { IfOk result (λ review. review.0
        ≡ map (λ e. e.0.1) (fin.entries (seats_of name.now (seats panels.now)))) }
    ensures advice { let given = seats_of name.now (pair_map name_cmp text_cmp opinions.now) in
        IfOk result (λ review. review.1 ≡ map (λ e. opinion e.0 e.1) (fin.entries given)) }
{
    let experts = experts_in(alloc, panels, name)?;
    Ok((experts, opinions_in(alloc, opinions, name)?))
}
