//! Offices that were opened: a task is done with one, or it is counted, and what keeps it comes back.
ghost use Rattle.reg_core.specs.View.{published};
ghost use Rattle.reg_wire.specs.Serving.{AnswersOver};
ghost use Rattle.reg_program.specs.Checking.{ChecksAt};
ghost use Rattle.reg_program.specs.Publishing.{PublishesNow};
ghost use Rattle.reg_program.specs.Serving.{ServesOrStays};
ghost use Rattle.reg_program.specs.Tasks.{Did, IfPublishes, IfServes, streams_by};

use crate::checking::check_in;
use crate::console::Console;
use crate::faults::Undone;
use crate::publishing::Folders;
use crate::tasks::Task;
use reg_http::dates::{Dates, moment_now};
use reg_http::peers::Ports;
use reg_keeper::keeper::Keeper;
use reg_office::Office;
use std::io::{Read, Write};

/// Does this one task with the office that a keeper has, on these ports and in these folders, and gives the
/// keeper back as the task left it.
pub fn do_with<N: Ports, F: Folders, D: Dates, K: Keeper, R: Read, W: Write, E: Write>(
    rt: &HostRuntime,
    ports: &N,
    folders: &F,
    dates: &mut D,
    keeper: K,
    task: &Task<'_>,
    console: &mut Console<'_, R, W, E>,
) -> (K, Result<(), Undone>)
    ensures did { let io = streams_by R.remaining W.contents D.readings console.old console.new dates.old
        dates.new in
        Did K.world K.Holds K.Sound K.FAILS keeper result.0 io result.1 task.now }
    ensures serves { IfServes (ServesOrStays (AnswersOver K.world K.Holds K.Sound K.FAILS)
        (N.Opened ports.now) N.Given.blank N.Given.coming N.Given.written (D.readings dates.old)
        (D.readings dates.new) keeper result.0 result.1) task.now }
    ensures publishes { IfPublishes (PublishesNow (λ k. published (K.world k)) K.Holds F.Given.Tells
        F.Given.held F.Given.Puts (F.Opened folders.now) (D.readings dates.old)
        (D.readings dates.new) keeper result.0 result.1) task.now }
{
    let mut office = Office::new(rt.alloc(), keeper);
    let done = task.do_in(rt, ports, folders, dates, &mut office, console);
    (office.into_keeper(), done)
}

/// Counts what is in the office that a keeper has, as at the moment of the clock, and prints this version with
/// it; gives the keeper back.
pub fn check_with<D: Dates, K: Keeper, R: Read, W: Write, E: Write>(
    rt: &HostRuntime,
    dates: &mut D,
    keeper: K,
    version: i64,
    console: &mut Console<'_, R, W, E>,
) -> (K, Result<(), Undone>)
    ensures { let io = streams_by R.remaining W.contents D.readings console.old console.new dates.old
        dates.new in
        ChecksAt K.world K.Holds K.Sound K.FAILS io result.1 version keeper result.0 }
{
    let mut office = Office::new(rt.alloc(), keeper);
    let moment = moment_now(dates);
    let done = check_in(rt.alloc(), &mut office, version, moment, console.output);
    (office.into_keeper(), done)
}
