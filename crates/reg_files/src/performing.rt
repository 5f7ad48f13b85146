//! Does the jobs of the program by the clock and the files of the system.
ghost use Rattle.std.specs.Prelude.{◌≡◌, ◌⊎◌};

use crate::Files;
use crate::copies::FileCopies;
use reg_http::dates::ClockDates;
use reg_jobs::jobs::Job;
use reg_program::console::Console;
use reg_program::performing;
use std::io::{Read, Write};

/// Does a job over this standard input, output and error, and gives the exit status: 0, or 1 with
/// why on standard error.
pub fn perform<R: Read, W: Write, E: Write>(
    rt: &HostRuntime,
    job: Job,
    input: &mut R,
    output: &mut W,
    errors: &mut E,
) -> u8
    ensures status { (result ≡ 0) ⊎ (result ≡ 1) }
{
    let mut console = console_of(input, output, errors);
    perform_at(rt, job, &mut console)
}

// A console of these.
fn console_of<'a, R: Read, W: Write, E: Write>(
    input: &'a mut R,
    output: &'a mut W,
    errors: &'a mut E,
) -> Console<'a, R, W, E> {
    Console {
        input,
        output,
        errors,
    }
}

// The same at a console.
fn perform_at<R: Read, W: Write, E: Write>(
    rt: &HostRuntime,
    job: Job,
    console: &mut Console<'_, R, W, E>,
) -> u8
    ensures status { (result ≡ 0) ⊎ (result ≡ 1) }
{
    let mut dates = ClockDates { clock: rt };
    performing::perform(rt, &mut dates, &mut Files, &FileCopies, job, console)
}
