//! Requests in their table.
ghost use Rattle.std.specs.Prelude.{◌≡◌, ◌∷◌, true, None, option_map, string_bytes};
ghost use Rattle.std.specs.FinMap.{get};
ghost use Rattle.sqlite.specs.Held.{state};
ghost use Rattle.sqlite.specs.Held.{state as store_state};
ghost use Rattle.sqlite.specs.Values.{bound};
ghost use Rattle.sqlite.specs.declared.types.Value.TheVariants.{Text};
ghost use Rattle.reg_core.specs.File.{waiting};
ghost use Rattle.reg_core.specs.Request.{case_of, request_row, request_rows};
ghost use Rattle.reg_core.specs.View.{requests_of};
ghost use Rattle.reg_core.specs.WellKept.{has_request_form};
ghost use Rattle.reg_core.specs.World.{World, with_state};
ghost use Rattle.reg_core.specs.declared.request.State.TheVariants.{Pending};
ghost use Rattle.reg_records.specs.Requests.Values.{given_text, state_values};
ghost use Rattle.reg_rows.specs.Calls.{IsKeeping, Looks, Steps};
ghost use Rattle.reg_rows.specs.Changing.{AsksFor, with_pending};

use reg_core::request::{Request, State, StateWord};
use reg_core::rows::Rows;
use reg_core::text::{Account, Ref};
use reg_keeper::keeper::Fault;
use reg_ranges::formed::Formed;
use reg_records::column::{name_value, word_value};
use reg_records::requests::values::{given_text, request_values, state_values};
use reg_rows::kept::{add, change, find, list};
use reg_rows::minutes::{Minuted, minuted_all};
use reg_statements::loads::Loads;
use reg_tables::reports::Reports;
use reg_tables::texts::{
    CHANGE_REQUEST, INSERT_REQUESTS, SELECT_PENDING, SELECT_REQUEST, SELECT_REQUESTS,
    SELECT_REQUESTS_OF,
};
use sqlite::types::ValueRef;
use sqlite::{Connection, Transaction};
use std::alloc::Global;

/// The request of an account under a reference.
#[tactic(auto, using(reg_tables::proofs::Statements::request_by_key))]
pub fn own_one<S: Reports + Loads>(
    alloc: Global,
    conn: &mut Connection<S>,
    account: &Account,
    reference: &Ref,
) -> Result<Option<Request>, Fault>
    requires { IsKeeping (state S.Store conn.old) }
    ensures { Looks (state S.Store conn.old) (state S.Store conn.new) result
        (λ w row. row ≡ option_map (request_row (account.now, reference.now))
        (get w.requests (account.now, reference.now))) }
{
    let found = find::<S, Request>(
        alloc,
        conn,
        SELECT_REQUEST,
        &[name_value(account), name_value(reference)],
    )?;
    match found {
        Some(request) => Ok(Some(request.minuted(alloc, conn)?)),
        None => Ok(None),
    }
}

/// All requests of an account, by reference.
#[tactic(auto, using(reg_tables::proofs::Statements::requests_of_account))]
pub fn own<S: Reports + Loads>(
    alloc: Global,
    conn: &mut Connection<S>,
    account: &Account,
) -> Result<Rows<Request>, Fault>
    requires { IsKeeping (state S.Store conn.old) }
    ensures { Looks (state S.Store conn.old) (state S.Store conn.new) result
        (λ w rows. rows ≡ request_rows (requests_of account.now w)) }
{
    let requests = list::<S, Request>(alloc, conn, SELECT_REQUESTS_OF, &[name_value(account)])?;
    let requests = minuted_all(alloc, conn, requests)?;
    Ok(Rows::from_vec(requests))
}

/// All requests, by account and then by reference.
#[tactic(auto, using(reg_tables::proofs::Statements::all_requests))]
pub fn all<S: Reports + Loads>(
    alloc: Global,
    conn: &mut Connection<S>,
) -> Result<Rows<Request>, Fault>
    requires { IsKeeping (state S.Store conn.old) }
    ensures { Looks (state S.Store conn.old) (state S.Store conn.new) result
        (λ w rows. rows ≡ request_rows w.requests) }
{
    let requests = list::<S, Request>(alloc, conn, SELECT_REQUESTS, &[])?;
    let requests = minuted_all(alloc, conn, requests)?;
    Ok(Rows::from_vec(requests))
}

/// The requests that wait, by account and then by reference.
#[tactic(auto, using(reg_tables::proofs::Statements::requests_in_state))]
pub fn waiting<S: Reports + Loads>(
    alloc: Global,
    conn: &mut Connection<S>,
) -> Result<Rows<Request>, Fault>
    requires { IsKeeping (state S.Store conn.old) }
    ensures { Looks (state S.Store conn.old) (state S.Store conn.new) result
        (λ w rows. rows ≡ request_rows (waiting w)) }
{
    let pending = word_value(&StateWord::Pending);
    let requests = list::<S, Request>(alloc, conn, SELECT_PENDING, &[pending])?;
    let requests = minuted_all(alloc, conn, requests)?;
    Ok(Rows::from_vec(requests))
}

/// Adds a pending request, without the minute that it names, at a name that has none.
#[tactic(auto, using(reg_rows::proofs::Statements::adds_request))]
pub fn add_request<S: Reports>(tx: &mut Transaction<'_, S>, request: &Request) -> Result<(), Fault>
    requires { request.now.state ≡ Pending }
    ensures same_reference { tx.new.conn.ghost_name ≡ tx.old.conn.ghost_name }
    ensures steps { Steps (state S.Store tx.old.conn.now) (state S.Store tx.new.conn.now) result
        (λ (w : World). get w.requests (request.now.account, request.now.reference) ≡ None)
        (with_pending request.now) }
{
    formed(request);
    add::<S, Request>(tx, INSERT_REQUESTS, &request_values(request, &None))
}

/// Puts a request that is there in another state. What is given is what its ask is for.
#[tactic(auto, using(reg_tables::proofs::EditStatements::change_request_writes))]
pub fn set_state<S: Reports>(
    alloc: Global,
    tx: &mut Transaction<'_, S>,
    account: &Account,
    reference: &Ref,
    state: &State,
) -> Result<(), Fault>
    ensures same_reference { tx.new.conn.ghost_name ≡ tx.old.conn.ghost_name }
    ensures steps { Steps (store_state S.Store tx.old.conn.now)
        (store_state S.Store tx.new.conn.now) result
        (AsksFor (account.now, reference.now) state.now)
        (λ (w : World). with_state w (account.now, reference.now) state.now) }
{
    state.formed();
    let given = given_text(alloc, state)?;
    change::<S, Request>(
        tx,
        CHANGE_REQUEST,
        &named_state(account, reference, state, &given),
    )
}

/// The name of a request, and the columns of its new state. The last argument is what `given_text`
/// makes of the state.
fn named_state<'a>(
    account: &'a Account,
    reference: &'a Ref,
    state: &'a State,
    given: &'a Option<String>,
) -> [ValueRef<'a>; 5]
    requires { option_map string_bytes given.now ≡ given_text state.now }
    ensures { bound result ≡ Text account.now ∷ Text reference.now ∷ state_values state.now }
{
    let [state, given, reason] = state_values(state, given);
    [
        name_value(account),
        name_value(reference),
        state,
        given,
        reason,
    ]
}

// A request has its form.
fn formed(request: &Request)
    ensures { has_request_form (request.now.account, request.now.reference)
        (case_of request.now) ≡ true }
{
    request.account.formed();
    request.reference.formed();
    request.ask.formed();
    request.state.formed();
}
