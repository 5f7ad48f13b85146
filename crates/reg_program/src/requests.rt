//! What the jobs ask that have an office answer one request, and the requests that they make of it.
ghost use Rattle.std.specs.Prelude.{◌≡◌, codes, false, option_map, true, IfOk};
ghost use Rattle.std.specs.String.{string_bytes};
ghost use Rattle.reg_parse.specs.Command.{asked};
ghost use Rattle.reg_program.specs.Asking.{Spells, definition_at, listing_at};
ghost use Rattle.reg_program.specs.Looking.{only_looks};
ghost use Rattle.reg_program.specs.Requests.{IsBodiless, IsDefinition, IsListing, IsRequestOf, IsWorded, form_by, reads_input, source_by};

use crate::asking::{AnswerForm, answer_line};
use crate::faults::{JobFailure, Undone};
use crate::inputs::{body_of, bytes_of, optional_token, token_of};
use http::Method;
use reg_core::command::Command;
use reg_core::wire_refusal::ReadFault;
use reg_jobs::jobs::{Definition, OfficeRequest};
use reg_parse::command::read_command;
use reg_parse::route::Routes;
use reg_print::answer::Answer;
use std::alloc::{AllocError, Global};
use std::io::Read;

/// What a job asks of an office.
#[derive(Clone, Copy)]
pub enum JobQuestion<'a> {
    /// One request, as its words say it.
    Request(&'a OfficeRequest),
    /// That a registry is defined from a range file.
    Definition(&'a Definition),
    /// A listing, by the source that is asked, of this registry or, without one, of the blocks.
    Listing(&'a str, &'a Option<String>),
}

impl JobQuestion<'_> {
    /// The path of the office's file, or the address at which it is served.
    pub fn source(&self) -> &str
        ensures { result.now ≡ source_by self.now }
    {
        match self {
            JobQuestion::Request(order) => order.source.as_str(),
            JobQuestion::Definition(order) => order.source.as_str(),
            JobQuestion::Listing(source, _) => source,
        }
    }

    /// How its answer is printed.
    pub fn form(&self) -> AnswerForm
        ensures { result ≡ form_by self.now }
    {
        match self {
            JobQuestion::Request(_) | JobQuestion::Listing(_, _) => AnswerForm::Body,
            JobQuestion::Definition(_) => AnswerForm::Line,
        }
    }
}

/// A request that a job makes of an office, in a file or where it is served.
#[derive(Drop)]
pub struct JobRequest {
    /// The token of who asks, or none of anybody.
    pub token: Option<Vec<u8>>,
    /// Its method.
    pub method: String,
    /// Its path.
    pub path: String,
    /// Its body.
    pub body: Vec<u8>,
}

/// The request that asks for what a job asks. Only one that its words say reads standard input.
pub fn request_of<R: Read>(
    rt: &HostRuntime,
    question: JobQuestion<'_>,
    input: &mut R,
) -> Result<JobRequest, Undone>
    ensures asks { IfOk result (IsRequestOf question.entry (R.remaining input.old)) }
    ensures unread { reads_input question.entry ≡ false
        → R.remaining input.new ≡ R.remaining input.old }
{
    match question {
        JobQuestion::Request(order) => worded(rt, order, input),
        JobQuestion::Definition(order) => definition(rt, order),
        JobQuestion::Listing(_, registry) => Ok(listing(rt.alloc(), registry)?),
    }
}

// The request that the words of a job say.
fn worded<R: Read>(
    rt: &HostRuntime,
    order: &OfficeRequest,
    input: &mut R,
) -> Result<JobRequest, Undone>
    ensures { IfOk result (IsWorded order.now (R.remaining input.old)) }
{
    let alloc = rt.alloc();
    let token = optional_token(rt, alloc, &order.token)?;
    let body = body_of(alloc, &order.body, input)?;
    let method = String::from_str(alloc, order.method.as_str())?;
    let path = String::from_str(alloc, order.path.as_str())?;
    Ok(JobRequest {
        token,
        method,
        path,
        body,
    })
}

/// The request that defines a registry from a range file.
pub fn definition(rt: &HostRuntime, order: &Definition) -> Result<JobRequest, Undone>
    ensures { IfOk result (IsDefinition order.now) }
{
    let alloc = rt.alloc();
    let token = token_of(rt, alloc, order.clerk.as_str())?;
    let body = bytes_of(rt, alloc, order.ranges.as_str())?;
    let method = String::from_str(alloc, Method::PUT.as_str())?;
    let path = definition_path(alloc, order)?;
    Ok(JobRequest {
        token: Some(token),
        method,
        path,
        body,
    })
}

// The path at which a registry is defined.
fn definition_path(alloc: Global, order: &Definition) -> Result<String, AllocError>
    ensures { IfOk result (λ path. string_bytes path
        ≡ definition_at (string_bytes order.now.name) (string_bytes order.now.max)) }
{
    let name = order.name.as_str();
    let max = order.max.as_str();
    format!(in alloc; "/desk/registries/{name}/{max}")
}

/// The request that lists a registry or, without one, the blocks. Only want of memory is an error.
pub fn listing(alloc: Global, registry: &Option<String>) -> Result<JobRequest, AllocError>
    ensures { IfOk result (IsListing (option_map string_bytes registry.now)) }
{
    let path = listing_path(alloc, registry)?;
    bodiless(alloc, None, Method::GET.as_str(), path)
}

/// A request without a body. Only want of memory is an error.
pub fn bodiless(
    alloc: Global,
    token: Option<Vec<u8>>,
    method: &str,
    path: String,
) -> Result<JobRequest, AllocError>
    ensures { IfOk result
        (IsBodiless (option_map (λ t. t.items) token) method.now (string_bytes path)) }
{
    Ok(JobRequest {
        token,
        method: String::from_str(alloc, method)?,
        path,
        body: Vec::new(alloc),
    })
}

// The path at which a registry is listed or, without one, the blocks.
fn listing_path(alloc: Global, registry: &Option<String>) -> Result<String, AllocError>
    ensures { IfOk result (λ path. string_bytes path
        ≡ listing_at (option_map string_bytes registry.now)) }
{
    match registry {
        Some(name) => format!(in alloc; "/listings/registries/{name}"),
        None => String::from_str(alloc, "/listings/blocks"),
    }
}

/// The command that a request spells, which only looks if the method is GET. `Refused` where it spells none.
pub fn command_of(alloc: Global, request: &JobRequest) -> Result<Command, Undone>
    ensures spelled { Spells (asked (string_bytes request.now.method)
        (string_bytes request.now.path) request.now.body.items) result }
    ensures looks { string_bytes request.now.method ≡ codes "GET" →
        IfOk result (λ command. only_looks command ≡ true) }
{
    command(
        alloc,
        request.method.as_bytes(),
        request.path.as_bytes(),
        request.body.as_slice(),
    )
}

fn command(alloc: Global, method: &[u8], path: &[u8], body: &[u8]) -> Result<Command, Undone>
    ensures spelled { Spells (asked method.now path.now body.now) result }
    ensures looks { method.now ≡ codes "GET" →
        IfOk result (λ command. only_looks command ≡ true) }
{
    let routes = Routes::new(alloc)?;
    match read_command(alloc, &routes, method, path, body) {
        Ok(command) => Ok(command),
        Err(ReadFault::Refused(refusal)) => {
            Err(Undone::Refused(answer_line(alloc, &Answer::Wire(refusal))?))
        }
        Err(ReadFault::Memory) => Err(Undone::Fault(JobFailure::Memory)),
    }
}
