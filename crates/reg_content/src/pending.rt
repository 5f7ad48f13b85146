//! Requests that wait, with what experts say of them.
ghost use Rattle.std.specs.Prelude.{◌≡◌, map};
ghost use Rattle.sqlite.specs.Held.{state};
ghost use Rattle.reg_core.specs.File.{waiting_files};
ghost use Rattle.reg_rows.specs.Calls.{IsKeeping, Looks};
ghost use Rattle.reg_rows.specs.Seats.{filed};

use crate::requests::waiting;
use crate::reviews::seats;
use reg_core::case_file::CaseFile;
use reg_core::request::Request;
use reg_core::rows::Rows;
use reg_keeper::keeper::Fault;
use reg_rows::minutes::with_row;
use reg_statements::loads::Loads;
use reg_tables::reports::Reports;
use sqlite::Connection;
use std::alloc::Global;

/// The requests that wait, with their experts and all advice on them, by account and then by
/// reference.
pub fn pending<S: Reports + Loads>(
    alloc: Global,
    conn: &mut Connection<S>,
) -> Result<Rows<CaseFile>, Fault>
    requires { IsKeeping (state S.Store conn.old) }
    ensures { Looks (state S.Store conn.old) (state S.Store conn.new) result
        (λ w files. files ≡ waiting_files w) }
{
    let requests = waiting(alloc, conn)?;
    let files = filed_each(alloc, conn, requests.into_vec())?;
    Ok(Rows::from_vec(files))
}

/// Requests with their experts and all advice on them, looked up one by one.
fn filed_each<S: Reports + Loads>(
    alloc: Global,
    conn: &mut Connection<S>,
    requests: Vec<Request>,
) -> Result<Vec<CaseFile>, Fault>
    requires { IsKeeping (state S.Store conn.old) }
    ensures { Looks (state S.Store conn.old) (state S.Store conn.new) result
        (λ w files. files.items ≡ map (filed w) requests.items) }
{
    let mut files = Vec::new(alloc);
    for request in requests {
        let file = filed(alloc, conn, request)?;
        files = with_row(files, file)?;
    }
    Ok(files)
}

/// A request with its experts and all advice on it, by expert.
fn filed<S: Reports + Loads>(
    alloc: Global,
    conn: &mut Connection<S>,
    request: Request,
) -> Result<CaseFile, Fault>
    requires { IsKeeping (state S.Store conn.old) }
    ensures { Looks (state S.Store conn.old) (state S.Store conn.new) result
        (λ w file. file ≡ filed w request) }
{
    match seats(alloc, conn, &request.account, &request.reference) {
        Ok((experts, advice)) => Ok(CaseFile {
            request,
            experts,
            advice,
        }),
        Err(fault) => {
            drop(request);
            Err(fault)
        }
    }
}
