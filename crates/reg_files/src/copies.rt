//! Copies of the offices in files.
ghost use Rattle.std.specs.Prelude.{◌≡◌, ◌++◌, IfErr, OnOk};
ghost use Rattle.sqlite.specs.Held.{state};
ghost use Rattle.reg_source.specs.Disk.{replaces};
ghost use Rattle.reg_source.specs.Names.{names_by};
ghost use Rattle.reg_program.specs.Copying.{IsUncopied, PrintsCopied};
ghost use Rattle.reg_files.specs.Copies.{CopyIsTold, IsNotCopied, CopyIsPut, IsSeenAlone, IsToldOfSome, IsUnput, TellsCount};
ghost use Rattle.reg_files.specs.Journal.{AreActsOfSome, AreActsTaken};

use crate::journal::tell_acts_of;
use crate::originals::{Originals, SystemOriginals};
use crate::targets::{SystemPlaces, Targets};
use reg_program::copying::{Copies, copy_in};
use reg_program::faults::Undone;
use reg_source::disk::Disk;
use reg_source::replacement::Names;
use reg_sql::look::Look;
use reg_sql::snapshot::Snapshot;
use sqlite::Alter;
use std::alloc::Global;
use std::io::Write;

/// Copies of the offices in files, in folders of the system. The version and the number of requests that
/// are printed are those of an office that was seen in some copy. Which file was read, and what was
/// written, no contract can say.
#[derive(Drop)]
pub struct FileCopies;

impl Copies for FileCopies {
    ghost Copied = { λ _ _ _. IsToldOfSome };

    ghost Recorded = { λ _ _. AreActsOfSome };

    fn copy<W: Write>(
        &self,
        rt: &HostRuntime,
        path: &str,
        folder: &str,
        output: &mut W,
    ) -> Result<(), Undone> {
        let copies = CopiesIn {
            originals: SystemOriginals { rt },
            places: SystemPlaces { rt },
        };
        copies.copy(rt, path, folder, output)
    }

    fn tell_acts<W: Write>(
        &self,
        rt: &HostRuntime,
        path: &str,
        noted: &Option<String>,
        output: &mut W,
    ) -> Result<(), Undone> {
        let copies = CopiesIn {
            originals: SystemOriginals { rt },
            places: SystemPlaces { rt },
        };
        copies.tell_acts(rt, path, noted, output)
    }
}

/// Copies of the offices that have their originals here, in these places.
#[derive(Drop)]
pub struct CopiesIn<O, P> {
    /// Where they are read.
    pub originals: O,
    /// Where they are put.
    pub places: P,
}

impl<O: Originals, P: Targets> Copies for CopiesIn<O, P> {
    ghost Copied = { λ copies path folder version requests.
        CopyIsTold (P.Opened copies.places path folder) P.Given.Tells P.Given.done
        (O.Taken copies.originals path) version requests };

    ghost Recorded = { λ copies path. AreActsTaken (O.Taken copies.originals path) };

    fn copy<W: Write>(
        &self,
        rt: &HostRuntime,
        path: &str,
        folder: &str,
        output: &mut W,
    ) -> Result<(), Undone> {
        copy_by(
            rt.alloc(),
            &self.originals,
            &self.places,
            path,
            folder,
            output,
        )
    }

    fn tell_acts<W: Write>(
        &self,
        rt: &HostRuntime,
        path: &str,
        noted: &Option<String>,
        output: &mut W,
    ) -> Result<(), Undone> {
        tell_acts_of(rt.alloc(), &self.originals, path, noted, output)
    }
}

/// Takes a copy of the office in the file at a path, lets its bytes take their place in the folder at a path,
/// and prints the version of the office and how many requests it has. The original and the place say why
/// there is none.
pub fn copy_by<O: Originals, P: Targets, W: Write>(
    alloc: Global,
    originals: &O,
    places: &P,
    path: &str,
    folder: &str,
    output: &mut W,
) -> Result<(), Undone>
    ensures copied { OnOk result (PrintsCopied
        (CopyIsTold (P.Opened places.now path.now folder.now) P.Given.Tells P.Given.done
        (O.Taken originals.now path.now)) (W.contents output.old) (W.contents output.new)) }
    ensures failed { IfErr result
        (IsNotCopied (P.Opened places.now path.now folder.now) P.Given.Tells P.Given.done
        (O.Taken originals.now path.now) (O.Untaken originals.now path.now)
        (P.Unopened places.now path.now folder.now)) }
{
    let snapshot = originals.take(path)?;
    put(alloc, snapshot, places, path, folder, output)
}

// Puts a copy of the office in the file at a path into the folder at a path, and lets the copy go.
fn put<P: Targets, W: Write>(
    alloc: Global,
    mut snapshot: Snapshot,
    places: &P,
    path: &str,
    folder: &str,
    output: &mut W,
) -> Result<(), Undone>
    requires { IsSeenAlone snapshot }
    ensures copied { OnOk result (PrintsCopied
        (CopyIsPut (P.Opened places.now path.now folder.now) P.Given.Tells P.Given.done snapshot)
        (W.contents output.old) (W.contents output.new)) }
    ensures failed { IfErr result
        (IsUnput (P.Opened places.now path.now folder.now) P.Given.Tells P.Given.done
        (P.Unopened places.now path.now folder.now) snapshot) }
{
    let done = put_into(alloc, &mut snapshot, places, path, folder, output);
    let_go(snapshot);
    done
}

// The place stays open meanwhile.
fn put_into<P: Targets, W: Write>(
    alloc: Global,
    snapshot: &mut Snapshot,
    places: &P,
    path: &str,
    folder: &str,
    output: &mut W,
) -> Result<(), Undone>
    requires { IsSeenAlone snapshot.old }
    ensures copied { OnOk result (PrintsCopied
        (CopyIsPut (P.Opened places.now path.now folder.now) P.Given.Tells P.Given.done snapshot.old)
        (W.contents output.old) (W.contents output.new)) }
    ensures failed { IfErr result
        (IsUnput (P.Opened places.now path.now folder.now) P.Given.Tells P.Given.done
        (P.Unopened places.now path.now folder.now) snapshot.old) }
{
    let mut target = places.open(path, folder)?;
    put_look(
        alloc,
        &mut snapshot.look,
        snapshot.bytes.as_slice(),
        &mut target.disk,
        &target.names,
        output,
    )
}

// Lets the bytes of a copy in which an office was seen take their place on a disk, and prints the version of the
// office and how many requests it has. It is over any store, since what is over a known one unfolds all that it
// holds.
fn put_look<S: Alter, D: Disk, W: Write>(
    alloc: Global,
    look: &mut Look<S>,
    bytes: &[u8],
    disk: &mut D,
    names: &Names,
    output: &mut W,
) -> Result<(), Undone>
    ensures printed { OnOk result (PrintsCopied (TellsCount look.old.version
        (state S.Store look.old.keeper.tables) (state S.Store look.new.keeper.tables))
        (W.contents output.old) (W.contents output.new)) }
    ensures put { D.Tells → OnOk result (D.done disk.new
        ≡ D.done disk.old ++ replaces (names_by names.now) bytes.now) }
    ensures failed { D.Tells → IfErr result (IsUncopied (names_by names.now) bytes.now
        (D.done disk.old) (D.done disk.new)) }
{
    let version = look.version.number();
    copy_in(alloc, &mut look.keeper, version, disk, names, bytes, output)
}

/// Lets a copy go.
pub(crate) fn let_go(snapshot: Snapshot) {
    let_look_go(snapshot.look);
}

// Lets go of what was seen in it, over any store too.
fn let_look_go<S: Alter + Drop>(look: Look<S>) {
    drop(look);
}
