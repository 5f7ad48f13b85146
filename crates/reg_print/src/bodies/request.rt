//! Prints requests. Members that are absent are not printed.
ghost use Rattle.std.specs.Prelude.{◌≡◌, [], ◌∷◌, codes, IfOk};
ghost use Rattle.std.specs.String.{string_bytes};
ghost use Rattle.reg_print.specs.Printed.{IfWhole, PrintedMembers};
ghost use Rattle.reg_print.specs.Trees.Request.{request_tree, desk_tree, request_members, standing_members, given_if, given_text, reason_if};

use crate::printing::{Itself, Print, Printer};
use reg_core::request::{Given, Request, State};
use std::alloc::{AllocError, Global};

/// A request as the desk sees it.
pub(crate) struct Desk;

/// A request as its applicant sees it: what it asks for, under which reference, and where it
/// stands.
impl Print<Itself> for Request {
    ghost tree = { request_tree };

    ghost levels = { 3 };

    fn print(&self, out: &mut Printer) {
        out.open_object();
        put_own(out, self);
        out.close_object();
    }
}

/// A request as the desk sees it: also whose it is.
impl Print<Desk> for Request {
    ghost tree = { desk_tree };

    ghost levels = { 3 };

    fn print(&self, out: &mut Printer) {
        out.open_object();
        out.put("account", &self.account);
        put_own(out, self);
        out.close_object();
    }
}

// The members of a request that its applicant sees.
fn put_own(out: &mut Printer, request: &Request)
    ensures { IfWhole out.old out.new
        (PrintedMembers out.old.json out.new.json 2 (request_members request.now)) }
{
    out.put("ask", &request.ask);
    put_standing(out, request);
}

/// The members that tell a request's reference, and where it stands.
pub(crate) fn put_standing(out: &mut Printer, request: &Request)
    ensures { IfWhole out.old out.new
        (PrintedMembers out.old.json out.new.json 0 (standing_members request.now)) }
{
    put_given_if(out, &request.state);
    put_reason_if(out, &request.state);
    out.put("reference", &request.reference);
    let state = request.state.word();
    out.put_text("state", state.word());
}

fn put_reason_if(out: &mut Printer, state: &State)
    ensures { IfWhole out.old out.new
        (PrintedMembers out.old.json out.new.json 0 ((codes "reason", reason_if state.now) ∷ [])) }
{
    match state {
        State::Declined(reason) => out.put("reason", reason),
        State::Pending | State::Approved(_) | State::Withdrawn => {},
    }
}

fn put_given_if(out: &mut Printer, state: &State)
    ensures { IfWhole out.old out.new
        (PrintedMembers out.old.json out.new.json 0 ((codes "given", given_if state.now) ∷ [])) }
{
    match state {
        State::Approved(given) => out.put_made("given", given_text(out.alloc, *given)),
        State::Pending | State::Declined(_) | State::Withdrawn => {},
    }
}

// What was given: a value in decimal, and a block as the digits of its prefix.
fn given_text(alloc: Global, given: Given) -> Result<String, AllocError>
    ensures { IfOk result (λ t. string_bytes t ≡ given_text given) }
{
    match given {
        Given::Value(value) => format!(in alloc; "{value}"),
        Given::Block(block) => block.text(alloc),
    }
}
