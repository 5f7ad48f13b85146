//! Journals of the offices in files.
ghost use Rattle.std.specs.Prelude.{option_map};
ghost use Rattle.std.specs.String.{string_bytes};
ghost use Rattle.sqlite.specs.Files.{file_state};
ghost use Rattle.sqlite.specs.Held.{state};
ghost use Rattle.reg_program.specs.Journal.{TellsActs};
ghost use Rattle.reg_files.specs.Copies.{IsSeenAlone};
ghost use Rattle.reg_files.specs.Journal.{AreActsIn, AreActsOf, AreActsTaken};

use crate::copies::let_go;
use crate::originals::Originals;
use reg_program::faults::Undone;
use reg_program::journal::print_acts;
use reg_sql::look::Look;
use reg_sql::snapshot::Snapshot;
use sqlite::Alter;
use std::alloc::Global;
use std::io::Write;

/// Prints all acts of the office in the file at a path, which are read of a copy, as `print_acts` does.
/// The original says why there is none.
pub fn tell_acts_of<O: Originals, W: Write>(
    alloc: Global,
    originals: &O,
    path: &str,
    noted: &Option<String>,
    output: &mut W,
) -> Result<(), Undone>
    ensures { TellsActs (AreActsTaken (O.Taken originals.now path.now))
        (option_map string_bytes noted.now) (W.contents output.old) (W.contents output.new) result }
{
    let snapshot = originals.take(path)?;
    tell(alloc, snapshot, noted, output)
}

// Prints all acts of the office in a copy, and lets the copy go.
fn tell<W: Write>(
    alloc: Global,
    mut snapshot: Snapshot,
    noted: &Option<String>,
    output: &mut W,
) -> Result<(), Undone>
    requires { IsSeenAlone snapshot }
    ensures { TellsActs (AreActsOf snapshot) (option_map string_bytes noted.now)
        (W.contents output.old) (W.contents output.new) result }
{
    let told = tell_seen(alloc, &mut snapshot.look, noted, output);
    let_go(snapshot);
    told
}

// Prints all acts of an office that is seen in a copy. It is over any store, since what is over a known one
// unfolds all that it holds.
fn tell_seen<S: Alter, W: Write>(
    alloc: Global,
    look: &mut Look<S>,
    noted: &Option<String>,
    output: &mut W,
) -> Result<(), Undone>
    ensures { TellsActs (AreActsIn (state S.Store look.old.keeper.tables)
        (state S.Store look.new.keeper.tables)) (option_map string_bytes noted.now)
        (W.contents output.old) (W.contents output.new) result }
{
    print_acts(alloc, &mut look.keeper, noted, output)
}
