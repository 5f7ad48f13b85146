//! The jobs that have an office answer one request, in a file or where it is served.
ghost use Rattle.reg_program.specs.Performing.{AnswersQuestion, TriesIn};
ghost use Rattle.reg_program.specs.Tasks.{streams_by};

use crate::asking::Question;
use crate::carrying::carry_out;
use crate::console::Console;
use crate::faults::Undone;
use crate::publishing::port_of;
use crate::requests::{JobQuestion, command_of, request_of};
use crate::served::ask_served;
use crate::tasks::{Offices, Task};
use reg_http::dates::Dates;
use std::io::{Read, Write};

/// Has the office that is served at an address, or the one in a file, answer what a job asks, and prints the
/// answer. What spells no command is refused in the same way by both, and not sent.
pub fn ask<D: Dates, O: Offices, R: Read, W: Write, E: Write>(
    rt: &HostRuntime,
    dates: &mut D,
    offices: &mut O,
    question: JobQuestion<'_>,
    console: &mut Console<'_, R, W, E>,
) -> Result<(), Undone>
    ensures { let io = streams_by R.remaining W.contents D.readings console.old console.new dates.old
        dates.new in
        TriesIn O.Carried offices.old offices.new (AnswersQuestion (O.Answered offices.old) question.entry) io
        result }
{
    let port = port_of(question.source())?;
    let request = request_of(rt, question, console.input)?;
    let command = command_of(rt.alloc(), &request)?;
    let form = question.form();
    match port {
        Some(port) => {
            drop(command);
            ask_served(rt, offices, port, &request, form, console.output)
        }
        None => {
            let task = Task::Ask(Question {
                token: request.token.as_deref(),
                command,
                form,
            });
            carry_out(rt, dates, offices, question.source(), task, console)
        }
    }
}
