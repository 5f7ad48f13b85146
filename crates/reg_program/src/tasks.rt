//! What jobs do with the offices in files.
ghost use Rattle.std.specs.Prelude.{◌≡◌, false, true, Err, IfOk, option_map};
ghost use Rattle.reg_core.specs.Names.{is_token};
ghost use Rattle.reg_core.specs.View.{published};
ghost use Rattle.reg_program.specs.Doing.{Does};
ghost use Rattle.reg_program.specs.Founding.{IsReady, IsUnready};
ghost use Rattle.reg_program.specs.Publishing.{PublishesNow};
ghost use Rattle.reg_program.specs.Serving.{ServesOrStays};
ghost use Rattle.reg_wire.specs.Serving.{AnswersOver};
ghost use Rattle.reg_program.specs.Tasks.{Did, IfPublishes, IfServes, begins, looks_on, site_of, streams_by};
ghost use Rattle.reg_program.specs.declared.faults.JobFailure.TheVariants as failure;

use crate::asking::{Question, ask_in, print};
use crate::console::Console;
use crate::expiring::print_due;
use crate::faults::Undone;
use crate::listening::{Serving, serve_in};
use crate::publishing::{Folders, publish_in};
use crate::scripts::run_in;
use crate::tokens::{revoke_in, tokens_in};
use reg_http::dates::{Dates, moment_now};
use reg_http::peers::Ports;
use reg_keeper::keeper::Keeper;
use reg_office::{Choice, Office};
use reg_pages::notes::Notes;
use reg_source::unpublished::Unpublished;
use std::io::{Read, Write};

/// What a job does with the office in a file.
#[derive(Drop)]
pub enum Task<'a> {
    /// Founds it, with this clerk's token.
    Found {
        clerk: &'a [u8],
    },
    /// Founds it, with this clerk's token, and has it answer the lines of standard input.
    Run {
        clerk: &'a [u8],
    },
    /// Serves it, and with it the files in the folder at this path, if there is one.
    Serve {
        serving: Serving,
        site: Option<&'a str>,
    },
    /// Has it answer a command.
    Ask(Question<'a>),
    /// Prints all its capabilities.
    Tokens,
    /// Takes these capabilities away, and prints them.
    Revoke {
        choice: Choice<'a>,
    },
    /// Publishes it in the folder at this path, with these notes.
    Publish {
        folder: &'a str,
        notes: Option<&'a Notes>,
    },
    /// Prints which of its early allocations are due within so many days.
    Due(u32),
}

/// What has the offices: in files, and served on this machine.
pub trait Offices {
    ghost use Rattle.std.specs.Prelude.{⊤, ℕ, List, Result};
    ghost use Rattle.reg_program.specs.Tasks.{Streams as OfConsole};
    ghost use Rattle.reg_program.specs.declared.faults.Undone.{Undone as OfJob};
    ghost use Rattle.reg_program.specs.declared.tasks.Task.{Task as OfOffice};

    /// What becomes of the offices, from before to after, by one task with the office in the file at a
    /// path, with this result.
    ghost Carried: { Self → Self → List ℕ → OfOffice → OfConsole → Result ⊤ OfJob → Type 0 };

    /// What becomes of them by a look at the office in the file at a path, with this result.
    ghost Checked: { Self → Self → List ℕ → OfConsole → Result ⊤ OfJob → Type 0 };

    /// The office that is served on a port of loopback gives this answer to the bytes of a request.
    ghost Answered: { Self → ℕ → List ℕ → List ℕ → Type 0 };

    /// Opens the office in the file at a path, does one task with it, and closes it. The office is begun,
    /// empty, where the task begins it and there is no file, or one with nothing in it. `Busy` where another
    /// job has the file open, `NotOurs` where there is no office, or one that is not well kept, and `Version`
    /// where it is of another version; else as `Task::do_in`.
    fn open_and_do<D: Dates, R: Read, W: Write, E: Write>(
        &mut self,
        rt: &HostRuntime,
        dates: &mut D,
        path: &str,
        task: &Task<'_>,
        console: &mut Console<'_, R, W, E>,
    ) -> Result<(), Undone>
        ensures { let io = streams_by R.remaining W.contents D.readings console.old console.new dates.old
            dates.new in
            Carried self.old self.new path.now task.now io result };

    /// Looks at the office in the file at a path, as at the moment of the clock, and changes nothing:
    /// an older one stays as it is, and an absent file is not made. As `check_in`; `Explained` where
    /// there is no office, or one that is not well kept.
    fn check<D: Dates, R: Read, W: Write, E: Write>(
        &mut self,
        rt: &HostRuntime,
        dates: &mut D,
        path: &str,
        console: &mut Console<'_, R, W, E>,
    ) -> Result<(), Undone>
        ensures { let io = streams_by R.remaining W.contents D.readings console.old console.new dates.old
            dates.new in
            Checked self.old self.new path.now io result };

    /// Sends the bytes of one request to the office that is served on a port of loopback, and gives the bytes
    /// of its answer. As `exchange` of `reg_client`.
    fn exchange(&self, rt: &HostRuntime, port: u16, request: &[u8]) -> Result<Vec<u8>, Unpublished>
        ensures { IfOk result (λ answer. Answered self.now port request.now answer.items) };
}

impl Task<'_> {
    /// Whether it begins an office where there is none.
    pub fn begins(&self) -> bool
        ensures { result ≡ begins self.now }
    {
        matches!(self, Task::Found { .. } | Task::Run { .. })
    }

    /// Whether it serves the office.
    pub fn serves(&self) -> bool {
        matches!(self, Task::Serve { .. })
    }

    /// The path of the folder whose files are served with it, if there is one.
    pub fn site(&self) -> Option<&str>
        ensures { option_map (λ path. path.now) result ≡ site_of self.now }
    {
        match self {
            Task::Serve { serving: _, site } => *site,
            _ => None,
        }
    }

    /// Does it with an office that is open, at the moment that these dates say, and serves it on one
    /// of these ports, or publishes it in one of these folders.
    pub fn do_in<N: Ports, F: Folders, D: Dates, K: Keeper, R: Read, W: Write, E: Write>(
        &self,
        rt: &HostRuntime,
        ports: &N,
        folders: &F,
        dates: &mut D,
        office: &mut Office<K>,
        console: &mut Console<'_, R, W, E>,
    ) -> Result<(), Undone>
        ensures did { let io = streams_by R.remaining W.contents D.readings console.old console.new dates.old
            dates.new in
            Did K.world K.Holds K.Sound K.FAILS office.old office.new io result self.now }
        ensures serves { IfServes (ServesOrStays (AnswersOver K.world K.Holds K.Sound K.FAILS)
            (N.Opened ports.now) N.Given.blank N.Given.coming N.Given.written (D.readings dates.old)
            (D.readings dates.new) office.old office.new result) self.now }
        ensures publishes { IfPublishes (PublishesNow (λ k. published (K.world k)) K.Holds F.Given.Tells
            F.Given.held F.Given.Puts (F.Opened folders.now) (D.readings dates.old)
            (D.readings dates.new) office.old office.new result) self.now }
        ensures looks { looks_on self.now ≡ true →
            K.Holds office.new → K.world office.new ≡ K.world office.old }
    {
        let alloc = rt.alloc();
        match self {
            Task::Found { clerk } => found_in(office, moment_now(dates), clerk, console.output),
            Task::Run { clerk } => run_in(alloc, office, clerk, console),
            Task::Serve { serving, site: _ } => {
                serve_in(alloc, ports, dates, office, *serving, console)
            }
            Task::Ask(asked) => ask_in(alloc, office, moment_now(dates), asked, console.output),
            Task::Tokens => tokens_in(alloc, office, console.output),
            Task::Revoke { choice } => {
                revoke_in(alloc, office, moment_now(dates), *choice, console.output)
            }
            Task::Publish { folder, notes } => {
                let now = moment_now(dates);
                publish_in(alloc, folders, office, now, folder, *notes, console)
            }
            Task::Due(days) => print_due(alloc, office, moment_now(dates), *days, console.output),
        }
    }
}

/// Founds an office at a moment, in seconds since 1970-01-01T00:00:00Z, and says that it is ready.
pub fn found_in<K: Keeper, W: Write>(
    office: &mut Office<K>,
    moment: u64,
    clerk: &[u8],
    output: &mut W,
) -> Result<(), Undone>
    ensures does { Does K.world K.Holds K.Sound K.FAILS office.old office.new result
        (λ old new. IsReady moment clerk.now (W.contents output.old) (W.contents output.new) old new)
        (λ old new why. IsUnready moment clerk.now old new why) }
    ensures ill_formed { is_token clerk.now ≡ false →
        result ≡ Err (Undone.Fault failure.Token) }
{
    office.found_at(moment, clerk)?;
    print(output, b"ready\n")
}
