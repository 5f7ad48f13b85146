//! The jobs about the capabilities of an office, in a file or where it is served: all are listed, and some
//! are taken away.
//!
//! What a served office answers is printed as over a file. So of digits that begin several digests, and of
//! a list of none, it is said that there is no such token.
ghost use Rattle.std.specs.Prelude.{◌≡◌, true, IfErr, IfOk, OnOk, option_map};
ghost use Rattle.std.specs.String.{string_bytes};
ghost use Rattle.reg_program.specs.Capabilities.{AsksRevocation, AsksTokens, IsIllFormed, IsSaidOfFile, IsUnrevokedOf, ListsCapabilities, PrintsListed, PrintsListedOf, PrintsRevoked, PrintsRevokedOf, is_formed, revocation_at};
ghost use Rattle.reg_program.specs.Performing.{IsTakenBy, TellsRevoked, TellsTokens, TriesIn, TriesTask};
ghost use Rattle.reg_program.specs.Requests.{IsGivenTo};
ghost use Rattle.reg_program.specs.Served.{IsUnprintedOf};
ghost use Rattle.reg_program.specs.Tasks.{streams_by};

use crate::asking::refusal_line;
use crate::carrying::carry_out;
use crate::console::Console;
use crate::faults::{JobFailure, Undone};
use crate::inputs::optional_token;
use crate::publishing::port_of;
use crate::requests::bodiless;
use crate::served::{answer_of, unaccepted};
use crate::tasks::{Offices, Task};
use crate::tokens::{account_of, no_token, print_rows};
use http::Method;
use reg_client::answers::body_of;
use reg_client::reading::capabilities_of;
use reg_core::capability::CapRow;
use reg_core::refusal::Refusal;
use reg_core::text::Digits;
use reg_http::dates::Dates;
use reg_jobs::jobs::Which;
use reg_office::Choice;
use reg_print::answer::Format;
use reg_source::unpublished::Unpublished;
use std::alloc::{AllocError, Global};
use std::io::{Read, Write};

/// Prints the capabilities of the office that is served at an address, or of the one in a file.
pub fn list_tokens<D: Dates, O: Offices, R: Read, W: Write, E: Write>(
    rt: &HostRuntime,
    dates: &mut D,
    offices: &mut O,
    source: &str,
    token: &Option<String>,
    console: &mut Console<'_, R, W, E>,
) -> Result<(), Undone>
    ensures { let io = streams_by R.remaining W.contents D.readings console.old console.new dates.old
        dates.new in
        TriesIn O.Carried offices.old offices.new (TellsTokens (O.Answered offices.old) source.now
        (option_map string_bytes token.now)) io result }
{
    match port_of(source)? {
        Some(port) => list_served(rt, offices, port, token, console.output),
        None => carry_out(rt, dates, offices, source, Task::Tokens, console),
    }
}

/// Takes these capabilities away of the office that is served at an address, or of the one in a file.
pub fn revoke<D: Dates, O: Offices, R: Read, W: Write, E: Write>(
    rt: &HostRuntime,
    dates: &mut D,
    offices: &mut O,
    source: &str,
    token: &Option<String>,
    which: &Which,
    console: &mut Console<'_, R, W, E>,
) -> Result<(), Undone>
    ensures { let io = streams_by R.remaining W.contents D.readings console.old console.new dates.old
        dates.new in
        TriesIn O.Carried offices.old offices.new (TellsRevoked (O.Answered offices.old) source.now
        (option_map string_bytes token.now) which.now) io result }
{
    match port_of(source)? {
        Some(port) => revoke_served(rt, offices, port, token, which, console.output),
        None => revoke_in_file(rt, dates, offices, source, which, console),
    }
}

fn revoke_in_file<D: Dates, O: Offices, R: Read, W: Write, E: Write>(
    rt: &HostRuntime,
    dates: &mut D,
    offices: &mut O,
    file: &str,
    which: &Which,
    console: &mut Console<'_, R, W, E>,
) -> Result<(), Undone>
    ensures { let io = streams_by R.remaining W.contents D.readings console.old console.new dates.old
        dates.new in
        TriesTask O.Carried offices.old offices.new file.now (IsTakenBy which.now) io result }
{
    match which {
        Which::Digest(digits) => {
            let choice = Choice::Digits(digits.as_bytes());
            carry_out(rt, dates, offices, file, Task::Revoke { choice }, console)
        }
        Which::Account(name) => {
            let account = account_of(rt.alloc(), name.as_str())?;
            let choice = Choice::Account(&account);
            carry_out(rt, dates, offices, file, Task::Revoke { choice }, console)
        }
    }
}

// ---- Of an office that is served

/// Prints all capabilities of the office that is served on a port of loopback. `Refused` where it refuses
/// it.
pub fn list_served<O: Offices, W: Write>(
    rt: &HostRuntime,
    offices: &O,
    port: u16,
    token: &Option<String>,
    output: &mut W,
) -> Result<(), Undone>
    ensures { OnOk result (PrintsListed (IsGivenTo (O.Answered offices.now port)
        (AsksTokens (option_map string_bytes token.now)))
        (W.contents output.old) (W.contents output.new)) }
{
    let alloc = rt.alloc();
    let token = optional_token(rt, alloc, token)?;
    let path = String::from_str(alloc, "/desk/tokens")?;
    let request = bodiless(alloc, token, Method::GET.as_str(), path)?;
    let answer = answer_of(rt, offices, port, &request)?;
    print_listed(alloc, answer.as_slice(), output)
}

/// Has these capabilities taken away by the office that is served on a port of loopback, and prints them.
/// `Refused` where it refuses it, and where there are none, or the words choose none or several.
pub fn revoke_served<O: Offices, W: Write>(
    rt: &HostRuntime,
    offices: &O,
    port: u16,
    token: &Option<String>,
    which: &Which,
    output: &mut W,
) -> Result<(), Undone>
    ensures { OnOk result (PrintsRevoked (IsGivenTo (O.Answered offices.now port)
        (AsksRevocation (option_map string_bytes token.now) which.now))
        (W.contents output.old) (W.contents output.new)) }
{
    let alloc = rt.alloc();
    let token = optional_token(rt, alloc, token)?;
    let path = revocation_path(alloc, which)?;
    let request = bodiless(alloc, token, Method::DELETE.as_str(), path)?;
    let answer = answer_of(rt, offices, port, &request)?;
    print_revoked(alloc, answer.as_slice(), output)
}

/// The path at which these capabilities are taken away. `Refused` where they are said by no digits of a
/// digest, or by no account.
pub fn revocation_path(alloc: Global, which: &Which) -> Result<String, Undone>
    ensures formed { IfOk result (λ path. is_formed which.now ≡ true) }
    ensures path { IfOk result (λ path. string_bytes path ≡ revocation_at which.now) }
    ensures refused { IfErr result (IsIllFormed which.now) }
{
    match which {
        Which::Digest(digits) => {
            if Digits::read(digits.as_bytes()).is_none() {
                return Err(no_token(alloc)?);
            }
            let digits = digits.as_str();
            Ok(format!(in alloc; "/desk/tokens/{digits}")?)
        }
        Which::Account(name) => {
            let account = account_of(alloc, name.as_str())?;
            let account = account.as_str();
            Ok(format!(in alloc; "/desk/accounts/{account}")?)
        }
    }
}

// ---- What is answered

/// Prints the capabilities that these bytes list, if they are an answer of an office that lists some. Else
/// as `unaccepted`.
pub fn print_listed<W: Write>(alloc: Global, answer: &[u8], output: &mut W) -> Result<(), Undone>
    ensures printed { OnOk result
        (PrintsListedOf answer.now (W.contents output.old) (W.contents output.new)) }
    ensures refused { IfErr result (IsUnprintedOf answer.now) }
{
    let rows = listed(alloc, answer)?;
    print_rows(alloc, rows, output)
}

/// Prints the capabilities that these bytes list, if they are an answer of an office that lists one at
/// least. `Refused` where they list none, or say that several are chosen: both as of an office in a file.
/// Else as `unaccepted`.
pub fn print_revoked<W: Write>(alloc: Global, answer: &[u8], output: &mut W) -> Result<(), Undone>
    ensures printed { OnOk result
        (PrintsRevokedOf answer.now (W.contents output.old) (W.contents output.new)) }
    ensures refused { IfErr result (IsUnrevokedOf answer.now) }
{
    let rows = revoked(alloc, answer)?;
    if rows.is_empty() {
        return Err(no_token(alloc)?);
    }
    print_rows(alloc, rows, output)
}

// The capabilities that an answer says were taken away.
fn revoked(alloc: Global, answer: &[u8]) -> Result<Vec<CapRow>, Undone>
    ensures ok { IfOk result (λ rows. ListsCapabilities answer.now rows.items) }
    ensures err { IfErr result (IsUnrevokedOf answer.now) }
{
    match listed(alloc, answer) {
        Ok(rows) => Ok(rows),
        Err(Undone::Refused(line)) => Err(unrevoked(alloc, line)?),
        Err(why) => Err(why),
    }
}

// Why none are taken away where an office says it by this line. Of one in a file it is said that there is
// no such token where several are chosen.
fn unrevoked(alloc: Global, line: Vec<u8>) -> Result<Undone, AllocError>
    ensures { IfOk result (IsSaidOfFile line.items) }
{
    let several = refusal_line(alloc, Refusal::Several)?;
    if line.as_slice() == several.as_slice() {
        no_token(alloc)
    } else {
        Ok(Undone::Refused(line))
    }
}

// The capabilities that an answer lists.
fn listed(alloc: Global, answer: &[u8]) -> Result<Vec<CapRow>, Undone>
    ensures ok { IfOk result (λ rows. ListsCapabilities answer.now rows.items) }
    ensures err { IfErr result (IsUnprintedOf answer.now) }
{
    let Some(body) = body_of(Format::Json, answer) else {
        return Err(unaccepted(alloc, answer)?);
    };
    match capabilities_of(alloc, body) {
        Ok(rows) => Ok(rows),
        Err(Unpublished::Memory) => Err(Undone::Fault(JobFailure::Memory)),
        Err(_) => Err(Undone::Fault(JobFailure::Read)),
    }
}
