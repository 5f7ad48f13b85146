//! The calls of an office and of its store. Each is over any store, or any disks, whose parts its
//! proof need not unfold, and none says what it leaves, so that who makes several does not carry it.
ghost use Rattle.std.specs.Prelude.{IsTrue};

use crate::tests::disks::sessions::{Done, Task};
use reg_core::command::{Command, PublicCommand};
use reg_keeper::keeper::Keeper;
use reg_office::{Choice, Office};
use reg_opening::kind::check;
use reg_program::asking::{AnswerForm, Question, ask_in};
use reg_program::checking::check_in;
use reg_program::faults::{JobFailure, Undone};
use reg_program::tokens::{revoke_in, tokens_in};
use reg_sql::keeper::SqlKeeper;
use reg_wire::script::run;
use sqlite::{Alter, Connection, Error, FileStore, Files, Options};
use sqlite_disk::Disk;
use std::alloc::Global;

// The moment of all jobs.
const MOMENT: u64 = 1_700_000_000;

/// Opens the store of these files, does the task with it if it is opened, and gives its files back
/// when it is closed, or ends without that.
pub fn session<D: Disk + Drop>(
    alloc: Global,
    files: Files<D>,
    pages: usize,
    task: Task<'_>,
    closes: bool,
) -> Result<(Done, Files<D>), Error>
    requires log { IsTrue (D.Disk.is_usable files.log) }
    requires db { IsTrue (D.Disk.is_usable files.db) }
{
    let options = Options {
        cache_pages: pages,
        ..Options::new(1)
    };
    match Connection::open_files(alloc, files, options) {
        Ok(conn) => {
            let (done, conn) = done(alloc, conn, task);
            Ok((done, ended(conn, closes)?))
        }
        Err((_, left)) => Ok((Done::Unopened, left.into_files())),
    }
}

// Does a task with a store, and gives it back.
fn done<S: Alter>(alloc: Global, mut conn: Connection<S>, task: Task<'_>) -> (Done, Connection<S>) {
    match task {
        Task::CarryOut(statements) => {
            let done = carried_out(alloc, &mut conn, statements);
            (done, conn)
        }
        task => asked(alloc, conn, task),
    }
}

// Carries statements out, and tells what the store is then.
fn carried_out<S: Alter>(alloc: Global, conn: &mut Connection<S>, statements: &str) -> Done {
    for sql in statements.lines() {
        if conn.execute(sql, &[]).is_err() {
            return Done::Undone;
        }
    }
    if conn.schema().tables.is_empty() {
        return Done::Judged(None);
    }
    if !conn.is_autocommit() {
        return Done::Undone;
    }
    match check(alloc, conn) {
        Ok(kind) => Done::Judged(Some(kind)),
        Err(_) => Done::Undone,
    }
}

// Takes the store over, and tells what the office does, if there is one.
fn asked<S: Alter>(alloc: Global, conn: Connection<S>, task: Task<'_>) -> (Done, Connection<S>) {
    let fresh = matches!(task, Task::Ask { fresh: true, .. });
    match SqlKeeper::adopt(alloc, conn, fresh) {
        Ok(keeper) => {
            let (done, keeper) = done_over(alloc, keeper, task);
            (done, keeper.into_connection())
        }
        Err((_, conn)) => (Done::Unopened, conn),
    }
}

// What an office over this keeper does.
fn done_over<K: Keeper>(alloc: Global, keeper: K, task: Task<'_>) -> (Done, K) {
    let mut office = Office::new(alloc, keeper);
    let done = match task {
        Task::Ask { token, lines, .. } => answers_of(alloc, &mut office, token, lines),
        task => job_done(alloc, &mut office, task),
    };
    (done, office.into_keeper())
}

fn answers_of<K: Keeper>(
    alloc: Global,
    office: &mut Office<K>,
    token: Option<&[u8]>,
    lines: &[u8],
) -> Done {
    if let Some(token) = token {
        if office.found(token).is_err() {
            return Done::Undone;
        }
    }
    let mut reader = lines;
    let mut answers = Vec::new(alloc);
    match run(alloc, office, &mut reader, &mut answers) {
        Ok(()) => Done::Answered(answers),
        Err(_) => Done::Undone,
    }
}

fn job_done<K: Keeper>(alloc: Global, office: &mut Office<K>, task: Task<'_>) -> Done {
    let mut output = Vec::new(alloc);
    let done = match task {
        Task::ListTokens => tokens_in(alloc, office, &mut output),
        Task::Count => check_in(alloc, office, 4, MOMENT, &mut output),
        Task::Revoke => {
            let choice = Choice::Digits(b"ff267600");
            revoke_in(alloc, office, MOMENT, choice, &mut output)
        }
        _ => {
            let question = Question {
                token: None,
                command: Command::Public(PublicCommand::BlocksCsv),
                form: AnswerForm::Body,
            };
            let done = ask_in(alloc, office, MOMENT, &question, &mut output);
            drop(question);
            done
        }
    };
    match done {
        Ok(()) => Done::Answered(output),
        Err(Undone::Fault(JobFailure::Store)) if output.is_empty() => Done::FaultOfStore,
        Err(_) => Done::Undone,
    }
}

// The files of a store that is closed, or ends without that.
fn ended<D: Disk + Drop>(conn: Connection<FileStore<D>>, closes: bool) -> Result<Files<D>, Error> {
    if !closes {
        return Ok(conn.into_store().close());
    }
    match conn.close_files() {
        Ok(files) => Ok(files),
        Err((error, store)) => {
            drop(store.close());
            Err(error)
        }
    }
}
