//! The office as the responder of a script.
ghost use Rattle.std.specs.Prelude.{◌≡◌, ◌++◌, ◌∷◌, map, IfOk};
ghost use Rattle.std.specs.Cow.{cow_slice_items};
ghost use Rattle.std.specs.Fmt.{decimal};
ghost use Rattle.reg_wire.specs.Exchange.{GivesAnswer};
ghost use Rattle.reg_wire.specs.Script.Answers.{ServesOver, answer_line, tab_of as tab};
ghost use Rattle.reg_wire.specs.Script.Line.{call_of, line_feed_of as line_feed};
ghost use Rattle.reg_wire.specs.Script.Lines.{ended};

use crate::exchange::{Call, answer_to};
use crate::script::line::Line;
use crate::script::responder::{Responder, Unanswered};
use memchr::memchr;
use reg_keeper::keeper::{Fault, Keeper};
use reg_office::Office;
use reg_parse::route::Routes;
use reg_print::answer::{Answer, body_of};
use std::alloc::{AllocError, Global};
use std::borrow::CowSlice;

impl<K: Keeper> Responder for Office<K> {
    type Routes = Routes;

    ghost Serves = { ServesOver K.world K.Holds K.Sound K.FAILS };

    fn respond(
        &mut self,
        alloc: Global,
        routes: &Routes,
        line: &Line<'_>,
    ) -> Result<Vec<u8>, Unanswered> {
        match answer_to_line(alloc, self, routes, line) {
            Ok(answer) => match into_line(alloc, answer) {
                Ok(text) => Ok(text),
                Err(_) => Err(Unanswered::Memory),
            },
            Err(_) => Err(Unanswered::Storage),
        }
    }
}

// What is answered to a line, unless the store or memory failed.
fn answer_to_line<K: Keeper>(
    alloc: Global,
    office: &mut Office<K>,
    routes: &Routes,
    line: &Line<'_>,
) -> Result<Answer, Fault>
    ensures { GivesAnswer K.world K.Holds K.Sound K.FAILS office.old (call_of line.now) result office.new }
{
    let body = with_line_feeds(alloc, line.body)?;
    let call = Call {
        moment: line.moment,
        token: line.token,
        method: line.method,
        path: line.path,
        body: body.as_slice(),
    };
    answer_to(alloc, office, routes, &call)
}

// A body as it is written in a line, with its line feeds. One that has none is not copied.
fn with_line_feeds(alloc: Global, body: &[u8]) -> Result<CowSlice<'_, u8>, AllocError>
    ensures { IfOk result (λ text. cow_slice_items text ≡ map line_feed body.now) }
{
    match memchr(b'\t', body) {
        None => Ok(CowSlice::Borrowed(body)),
        Some(_) => Ok(CowSlice::Owned(body.iter().map(|b| line_feed_of(*b)).collect(alloc)?)),
    }
}

fn line_feed_of(b: u8) -> u8
    ensures { result ≡ line_feed b }
{
    if b == b'\t' { b'\n' } else { b }
}

// An answer as a line, with its line feed.
fn into_line(alloc: Global, answer: Answer) -> Result<Vec<u8>, AllocError>
    ensures { IfOk result (λ v. v.items ≡ ended (answer_line answer)) }
{
    let printed = body_of(alloc, &answer);
    drop(answer);
    let (status, body) = printed?;
    line_of(alloc, status, body)
}

// The line of a status and a body, with a TAB for each line feed of the body.
fn line_of(alloc: Global, status: u16, mut body: Vec<u8>) -> Result<Vec<u8>, AllocError>
    ensures { IfOk result (λ v. v.items ≡ ended (decimal status ++ 32 ∷ map tab body.items)) }
{
    put_tabs(body.as_mut_slice());
    body.push(b'\n')?;
    let mut line = format!(in alloc; "{status} ")?.into_bytes();
    line.extend_from_slice(body.as_slice())?;
    Ok(line)
}

// A TAB in the place of each line feed.
fn put_tabs(body: &mut [u8])
    ensures { body.new ≡ map tab body.old }
{
    for byte in body.iter_mut() {
        *byte = tab_of(*byte);
    }
}

fn tab_of(b: u8) -> u8
    ensures { result ≡ tab b }
{
    if b == b'\n' { b'\t' } else { b }
}
