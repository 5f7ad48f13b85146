//! Tasks of jobs, with the offices in files.
ghost use Rattle.reg_program.specs.Tasks.{streams_by};

use crate::console::Console;
use crate::faults::Undone;
use crate::tasks::{Offices, Task};
use reg_http::dates::Dates;
use std::io::{Read, Write};

/// Carries a task out with the office in the file at a path, and lets the task go.
pub fn carry_out<D: Dates, O: Offices, R: Read, W: Write, E: Write>(
    rt: &HostRuntime,
    dates: &mut D,
    offices: &mut O,
    path: &str,
    task: Task<'_>,
    console: &mut Console<'_, R, W, E>,
) -> Result<(), Undone>
    ensures { let io = streams_by R.remaining W.contents D.readings console.old console.new dates.old
        dates.new in
        O.Carried offices.old offices.new path.now task.entry io result }
{
    offices.open_and_do(rt, dates, path, &task, console)
}
