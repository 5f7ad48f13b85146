//! Reads what anybody is told back from the bytes of answers, and the capabilities that a clerk is told.
ghost use Rattle.std.specs.Prelude.{◌≡◌, ◌↔◌, IfOk, IsTrue};
ghost use Rattle.reg_core.specs.declared.told.Told.TheVariants as tells;
ghost use Rattle.reg_print.specs.Answer.{body_text};
ghost use Rattle.reg_site.specs.Site.{told_text};
ghost use Rattle.reg_client.specs.Reading.{IsToldBy};

use reg_core::capability::CapRow;
use reg_core::command::PublicCommand;
use reg_core::reply::Reply;
use reg_core::told::Told;
use reg_print::answer::{Answer, body_of};
use reg_site::tree::RegistryTree;
use reg_source::comparing::gives_just;
use reg_source::unpublished::Unpublished;
use std::alloc::{AllocError, Global};

mod blocks;
mod capabilities;
mod members;
mod names;
mod page;
mod pool;

/// What anybody is told by a command, where these bytes are the body of its answer: what is read is
/// printed again and compared, a registry an entry at a time, and has to be these bytes. `Read`
/// where they are no such body. A listing of a registry is not read, since its page says more.
#[tactic(auto, using(crate::proofs::ReadPages::told_as))]
pub fn told_of(alloc: Global, command: &PublicCommand, body: &[u8]) -> Result<Told, Unpublished>
    ensures whole { IfOk result (λ told. body.now ≡ told_text told) }
    ensures asked { IfOk result (IsToldBy command.now) }
{
    let told = read_told(alloc, command, body)?;
    let Told::Page(page) = &told else {
        return compared(alloc, told, body);
    };
    if !gives_just(alloc, &mut RegistryTree::of(page), body)? {
        return Err(Unpublished::Read);
    }
    Ok(told)
}

/// The capabilities that a clerk is told, where these bytes are the body of that answer: what is read is
/// printed again, and has to be these bytes. `Read` where they are no such body. Of a digest the body
/// shows only the first digits, and what comes after them is taken for zeros.
pub fn capabilities_of(alloc: Global, body: &[u8]) -> Result<Vec<CapRow>, Unpublished>
    ensures { IfOk result (λ rows. body.now ≡ told_text (tells.Capabilities rows.items)) }
{
    let rows = capabilities::read(alloc, body)?;
    let told = compared(alloc, Told::Capabilities(rows), body)?;
    match &told {
        Told::Capabilities(rows) => Ok(rows.as_slice().to_vec(alloc)?),
        _ => Err(Unpublished::Read),
    }
}

// What is told, where these bytes are its text.
fn compared(alloc: Global, told: Told, body: &[u8]) -> Result<Told, Unpublished>
    ensures whole { IfOk result (λ given. body.now ≡ told_text given) }
    ensures same { IfOk result (λ given. given ≡ told) }
{
    let answer = Answer::Reply(Reply::Accepted(told));
    if !is_printed(alloc, &answer, body)? {
        return Err(Unpublished::Read);
    }
    match answer {
        Answer::Reply(Reply::Accepted(told)) => Ok(told),
        _ => Err(Unpublished::Read),
    }
}

fn is_printed(alloc: Global, answer: &Answer, body: &[u8]) -> Result<bool, AllocError>
    ensures { IfOk result (λ same. IsTrue same ↔ (body.now ≡ body_text answer.now)) }
{
    let (_, printed) = body_of(alloc, answer)?;
    Ok(printed.as_slice() == body)
}

// What is told by an answer to this command, as far as its form goes.
fn read_told(alloc: Global, command: &PublicCommand, body: &[u8]) -> Result<Told, Unpublished>
    ensures { IfOk result (IsToldBy command.now) }
{
    match command {
        PublicCommand::Registries => Ok(Told::Names(names::read(alloc, body)?)),
        PublicCommand::Registry(name) => Ok(Told::Page(page::read(alloc, name, body)?)),
        PublicCommand::RegistryCsv(_) => Err(Unpublished::Read),
        PublicCommand::PoolList => Ok(Told::Pool(pool::read(alloc, body)?)),
        PublicCommand::BlocksCsv => Ok(Told::Blocks(blocks::read(alloc, body)?)),
    }
}
