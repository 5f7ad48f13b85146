//! The jobs that are one command of an office.
//!
//! Each is a command at the moment of the clock, as a request asks it, and what is printed of its
//! answer.
ghost use Rattle.std.specs.Prelude.{◌≡◌, ◌++◌, IfOk, IfErr, OnOk, false, true};
ghost use Rattle.std.specs.Io.KnownBytes.{Appends, Keeps};
ghost use Rattle.reg_core.specs.Laws.{is_refused as refuses};
ghost use Rattle.reg_print.specs.declared.answer.Answer.TheVariants as answer;
ghost use Rattle.reg_program.specs.Asking.{PrintsStep, after_body, in_form, printed, step_of};
ghost use Rattle.reg_program.specs.Looking.{only_looks};
ghost use Rattle.reg_program.specs.Undone.{IsRefusedBy, answer_line as line_of, line_by, refusal_line as text_of_refusal};

use crate::faults::{JobFailure, Undone};
use reg_core::command::Command;
use reg_core::refusal::Refusal;
use reg_core::reply::Reply;
use reg_keeper::keeper::Keeper;
use reg_office::Office;
use reg_print::answer::{Answer, Format, body_of};
use std::alloc::{AllocError, Global};
use std::io::Write;

/// What is printed of the answer to a command that was accepted. A line feed comes after JSON.
#[derive(Clone, Copy, Debug, PartialEq, Eq)]
pub enum AnswerForm {
    /// The body.
    Body,
    /// The status and the body, with a space between.
    Line,
}

/// A command, who gives it, and how its answer is printed.
#[derive(Drop)]
pub struct Question<'a> {
    /// The token of the caller, or none of anybody.
    pub token: Option<&'a [u8]>,
    /// The command.
    pub command: Command,
    /// What is printed of the answer.
    pub form: AnswerForm,
}

/// Has an office answer a question, and prints its answer. `Refused` where it refuses it.
pub fn ask_in<K: Keeper, W: Write>(
    alloc: Global,
    office: &mut Office<K>,
    moment: u64,
    question: &Question<'_>,
    output: &mut W,
) -> Result<(), Undone>
    ensures does { PrintsStep K.world K.Holds K.Sound K.FAILS office.old office.new
        (step_of question.now moment) question.now.form (W.contents output.old) (W.contents output.new) result }
    ensures looks { only_looks question.now.command ≡ true →
        K.Holds office.new → K.world office.new ≡ K.world office.old }
{
    let reply = office.handle(moment, question.token, &question.command)?;
    let text = accepted_text(alloc, reply, question.form)?;
    print(output, text.as_slice())
}

// What is printed of a reply that is no refusal.
fn accepted_text(alloc: Global, reply: Reply, form: AnswerForm) -> Result<Vec<u8>, Undone>
    ensures accepted { OnOk result (refuses reply ≡ false) }
    ensures text { IfOk result (λ text. text.items ≡ printed form (answer.Reply reply)) }
    ensures refused { IfErr result (IsRefusedBy reply) }
{
    let is_refused = reply.is_refused();
    let answer = Answer::Reply(reply);
    if is_refused {
        return Err(Undone::Refused(answer_line(alloc, &answer)?));
    }
    Ok(printed(alloc, &answer, form)?)
}

// What is printed of an answer.
fn printed(alloc: Global, answer: &Answer, form: AnswerForm) -> Result<Vec<u8>, AllocError>
    ensures { IfOk result (λ text. text.items ≡ printed form answer.now) }
{
    let text = in_form(alloc, answer, form)?;
    with_end(text, answer.format())
}

// The body of an answer, or its line.
fn in_form(alloc: Global, answer: &Answer, form: AnswerForm) -> Result<Vec<u8>, AllocError>
    ensures { IfOk result (λ text. text.items ≡ in_form form answer.now) }
{
    match form {
        AnswerForm::Body => Ok(body_of(alloc, answer)?.1),
        AnswerForm::Line => answer_line(alloc, answer),
    }
}

/// The text, and a line feed after JSON.
pub fn with_end(mut text: Vec<u8>, format: Format) -> Result<Vec<u8>, AllocError>
    ensures { IfOk result (λ ended. ended.items ≡ text.items ++ after_body format) }
{
    match format {
        Format::Json => {
            text.push(b'\n')?;
            Ok(text)
        }
        Format::Csv => Ok(text),
    }
}

/// The status and the body of the answer to a command that is refused, with a space between.
pub fn refusal_line(alloc: Global, refusal: Refusal) -> Result<Vec<u8>, AllocError>
    ensures { IfOk result (λ line. line.items ≡ text_of_refusal refusal) }
{
    let line = answer_line(alloc, &Answer::Reply(Reply::Refused(refusal)))?;
    Ok(line)
}

/// The status and the body of an answer, with a space between.
pub fn answer_line(alloc: Global, answer: &Answer) -> Result<Vec<u8>, AllocError>
    ensures { IfOk result (λ line. line.items ≡ line_of answer.now) }
{
    let (status, body) = body_of(alloc, answer)?;
    line_by(alloc, status, body.as_slice())
}

/// A status and a body, with a space between.
pub fn line_by(alloc: Global, status: u16, body: &[u8]) -> Result<Vec<u8>, AllocError>
    ensures { IfOk result (λ line. line.items ≡ line_by status body.now) }
{
    let mut line = format!(in alloc; "{status} ")?.into_bytes();
    line.extend_from_slice(body)?;
    Ok(line)
}

/// Writes all the bytes, and has them go out. `Write` where that fails.
pub fn print<W: Write>(output: &mut W, bytes: &[u8]) -> Result<(), Undone>
    ensures ok { OnOk result
        (Appends (W.contents output.old) (W.contents output.new) bytes.now) }
    ensures err { IfErr result (λ undone. undone ≡ Undone.Fault JobFailure.Write) }
{
    match output.write_all(bytes) {
        Ok(()) => flush(output),
        Err(_) => Err(Undone::Fault(JobFailure::Write)),
    }
}

fn flush<W: Write>(output: &mut W) -> Result<(), Undone>
    ensures keeps { Keeps (W.contents output.old) (W.contents output.new) }
    ensures err { IfErr result (λ undone. undone ≡ Undone.Fault JobFailure.Write) }
{
    match output.flush() {
        Ok(()) => Ok(()),
        Err(_) => Err(Undone::Fault(JobFailure::Write)),
    }
}
