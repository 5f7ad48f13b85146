//! Minutes of the IESG, which renewals name, in their table.
ghost use Rattle.std.specs.Prelude.{◌≡◌, ◌++◌, ◌∷◌, [], Some, None, if◌then◌else◌, IfOk, map};
ghost use Rattle.std.specs.FinMap.{get};
ghost use Rattle.std.specs.List.{list_any};
ghost use Rattle.sqlite.specs.Held.{state};
ghost use Rattle.reg_maps.specs.Maps.{update};
ghost use Rattle.reg_core.specs.World.{World};
ghost use Rattle.reg_core.specs.Minutes.{ask_with, is_renewal, with_minute};
ghost use Rattle.reg_statements.specs.Parts.{Parts};
ghost use Rattle.reg_rows.specs.Calls.{IsKeeping, LooksIn, Steps};
ghost use Rattle.reg_rows.specs.Marks.{CanName, request_minuted};

use crate::kept::{add, find};
use reg_core::ask::Ask;
use reg_core::request::Request;
use reg_core::text::{Account, Ref, Text};
use reg_keeper::keeper::Fault;
use reg_ranges::formed::Formed;
use reg_records::column::name_value;
use reg_records::minutes::Minute;
use reg_statements::loads::Loads;
use reg_tables::reports::Reports;
use reg_tables::texts::{INSERT_MINUTES, SELECT_MINUTE};
use sqlite::{Connection, Transaction};
use std::alloc::{AllocError, Global};

/// What names a request, which may name a minute.
pub trait Minuted: Drop {
    /// What it is with the minute.
    type Whole: Drop;

    /// It with the minute that the request names, if it names one.
    ghost minuted: { Parts → Self → Self.Whole };

    /// It with the minute that the request names, if it names one.
    fn minuted<S: Reports + Loads>(
        self,
        alloc: Global,
        conn: &mut Connection<S>,
    ) -> Result<Self::Whole, Fault>
        requires { IsKeeping (state S.Store conn.old) }
        ensures { LooksIn (state S.Store conn.old) (state S.Store conn.new) result
            (λ p whole. whole ≡ minuted p self) };
}

impl Minuted for Request {
    type Whole = Request;

    ghost minuted = { request_minuted };

    // Only for a renewal is the minute looked up.
    fn minuted<S: Reports + Loads>(
        self,
        alloc: Global,
        conn: &mut Connection<S>,
    ) -> Result<Request, Fault> {
        match minute_if(alloc, conn, &self) {
            Ok(minute) => Ok(with_minute(self, minute)),
            Err(fault) => {
                drop(self);
                Err(fault)
            }
        }
    }
}

/// Requests with the minutes that they name.
pub fn minuted_all<S: Reports + Loads>(
    alloc: Global,
    conn: &mut Connection<S>,
    requests: Vec<Request>,
) -> Result<Vec<Request>, Fault>
    requires { IsKeeping (state S.Store conn.old) }
    ensures { LooksIn (state S.Store conn.old) (state S.Store conn.new) result
        (λ p minuted. minuted.items ≡ map (request_minuted p) requests.items) }
{
    if !any_renewal(requests.as_slice()) {
        return Ok(requests);
    }
    minuted_each(alloc, conn, requests)
}

/// Adds the minute that a renewal names which has none yet.
#[tactic(auto, using(crate::proofs::Statements::adds_minute))]
pub fn add_minute<S: Reports>(
    tx: &mut Transaction<'_, S>,
    account: &Account,
    reference: &Ref,
    minute: &Text,
) -> Result<(), Fault>
    ensures same_reference { tx.new.conn.ghost_name ≡ tx.old.conn.ghost_name }
    ensures steps { Steps (state S.Store tx.old.conn.now) (state S.Store tx.new.conn.now) result
        (CanName (account.now, reference.now))
        (λ (w : World). record w {
          requests = update w.requests (account.now, reference.now)
              (with_minute (Some minute.now));
        }) }
{
    let row = Minute {
        account: *account,
        reference: *reference,
        minute: minute.copy()?,
    };
    row.formed();
    let done = add::<S, Minute>(tx, INSERT_MINUTES, &row.values());
    drop(row);
    done
}

/// The minute that a request names, if it is a renewal and names one.
fn minute_if<S: Reports + Loads>(
    alloc: Global,
    conn: &mut Connection<S>,
    request: &Request,
) -> Result<Option<Text>, Fault>
    requires { IsKeeping (state S.Store conn.old) }
    ensures { LooksIn (state S.Store conn.old) (state S.Store conn.new) result
        (λ p minute. minute ≡ (if is_renewal request.now.ask
        then get p.minutes (request.now.account, request.now.reference) else None)) }
{
    if is_renewal(request) {
        minute(alloc, conn, &request.account, &request.reference)
    } else {
        Ok(None)
    }
}

/// The minute that the request of an account under a reference names, if it names one.
#[tactic(auto, using(reg_tables::proofs::Statements::minute_by_key))]
fn minute<S: Reports + Loads>(
    alloc: Global,
    conn: &mut Connection<S>,
    account: &Account,
    reference: &Ref,
) -> Result<Option<Text>, Fault>
    requires { IsKeeping (state S.Store conn.old) }
    ensures { LooksIn (state S.Store conn.old) (state S.Store conn.new) result
        (λ p minute. minute ≡ get p.minutes (account.now, reference.now)) }
{
    let found = find::<S, Minute>(
        alloc,
        conn,
        SELECT_MINUTE,
        &[name_value(account), name_value(reference)],
    )?;
    Ok(found.map(|found| found.minute))
}

/// Requests with the minutes that they name, looked up one by one.
pub fn minuted_each<S: Reports + Loads, T: Minuted>(
    alloc: Global,
    conn: &mut Connection<S>,
    requests: Vec<T>,
) -> Result<Vec<T::Whole>, Fault>
    requires { IsKeeping (state S.Store conn.old) }
    ensures { LooksIn (state S.Store conn.old) (state S.Store conn.new) result
        (λ p minuted. minuted.items ≡ map (T.minuted p) requests.items) }
{
    let mut rows = Vec::new(alloc);
    for request in requests {
        let row = request.minuted(alloc, conn)?;
        rows = with_row(rows, row)?;
    }
    Ok(rows)
}

/// Rows with one more.
pub fn with_row<T: Drop>(mut rows: Vec<T>, row: T) -> Result<Vec<T>, AllocError>
    ensures { IfOk result (λ more. more.items ≡ rows.items ++ row ∷ []) }
{
    rows.push(row)?;
    Ok(rows)
}

/// Whether a request of these is a renewal.
fn any_renewal(requests: &[Request]) -> bool
    ensures { result ≡ list_any (λ r. is_renewal r.ask) requests.now }
{
    requests.iter().any(is_renewal)
}

/// Whether a request is a renewal.
fn is_renewal(request: &Request) -> bool
    ensures { result ≡ is_renewal request.now.ask }
{
    matches!(request.ask, Ask::Renew(_))
}

/// A request with a minute or none, if it is a renewal.
fn with_minute(request: Request, minute: Option<Text>) -> Request
    ensures { result ≡ record request { ask = ask_with minute request.ask } }
{
    Request {
        account: request.account,
        reference: request.reference,
        ask: ask_with(request.ask, minute),
        state: request.state,
    }
}

/// An ask with a minute or none, if it is a renewal.
fn ask_with(mut ask: Ask, minute: Option<Text>) -> Ask
    ensures { result ≡ ask_with minute ask }
{
    if let Ask::Renew(renewal) = &mut ask {
        renewal.iesg = minute;
    }
    ask
}
