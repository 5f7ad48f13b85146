//! Copies of an office's file and its log, while another may be writing both.
ghost use Rattle.std.specs.Prelude.{◌≡◌, ◌∷◌, ◌++◌, [], IsTrue, IfErr, IfOk, IfSome, MatchOption};
ghost use Rattle.std.specs.Bool.{Decides};
ghost use Rattle.sqlite_disk.specs.Memory.{memory_bytes, memory_is_usable};
ghost use Rattle.reg_sql.specs.Looking.{IsOfCopies, IsOfReading};
ghost use Rattle.reg_sql.specs.Steady.{AreUnsteady, File, Header, IsCopiedWhole, IsReadAgain, IsSteadyTry, IsUnsteadyTry, Log};
ghost use Rattle.reg_sql.specs.declared.trouble.Trouble.TheVariants.{Unsteady};

use crate::trouble::Trouble;
use sqlite::Files;
use sqlite_disk::Memory;
use std::alloc::Global;

/// How often a copy is tried.
pub const TRIES: u32 = 10;

/// An office's file and its log, which are read, and which another may be writing meanwhile.
pub trait Original {
    ghost use Rattle.std.specs.Prelude.{List, [] as nothing};
    ghost use Rattle.reg_sql.specs.Steady.{CopyReading};

    /// Whether what follows is known.
    ghost Tells: { Type 0 } = { ⊥ };

    /// What was read so far, in turn.
    ghost readings: { Self → List CopyReading } = { λ _. nothing };

    /// The header of the log, as it is now: its first 32 bytes, or fewer if it has no more. Empty
    /// where there is no log.
    fn header(&mut self, alloc: Global) -> Result<Memory, Trouble>
        ensures read { Tells → IfOk result (λ copy.
            readings self.new ≡ readings self.old ++ Header (memory_bytes copy) ∷ []) }
        ensures trouble { IfErr result IsOfReading };

    /// All bytes of the file, as it is now.
    fn file(&mut self, alloc: Global) -> Result<Memory, Trouble>
        ensures usable { IfOk result (λ copy. IsTrue (memory_is_usable copy)) }
        ensures read { Tells → IfOk result (λ copy.
            readings self.new ≡ readings self.old ++ File (memory_bytes copy) ∷ []) }
        ensures trouble { IfErr result IsOfReading };

    /// All bytes of the log, as it is now; none where there is no log.
    fn log(&mut self, alloc: Global) -> Result<Memory, Trouble>
        ensures usable { IfOk result (λ copy. IsTrue (memory_is_usable copy)) }
        ensures read { Tells → IfOk result (λ copy.
            readings self.new ≡ readings self.old ++ Log (memory_bytes copy) ∷ []) }
        ensures trouble { IfErr result IsOfReading };
}

/// A copy of the file and the log as they stood at one moment. It is tried at most [`TRIES`] times:
/// `Unsteady` where none of them was steady, and for no other reason.
pub fn steady_copy<O: Original>(alloc: Global, original: &mut O) -> Result<Files<Memory>, Trouble>
    ensures usable { IfOk result (λ files. IsTrue (memory_is_usable files.log)
        × IsTrue (memory_is_usable files.db)) }
    ensures copied { O.Tells → IfOk result (λ files. IsCopiedWhole TRIES (memory_bytes files.log)
        (memory_bytes files.db) (O.readings original.old) (O.readings original.new)) }
    ensures unsteady { O.Tells → IfErr result (λ why. why ≡ Unsteady
        → AreUnsteady TRIES (O.readings original.old) (O.readings original.new)) }
    ensures trouble { IfErr result IsOfCopies }
{
    for _ in 0..TRIES {
        if let Some(files) = try_copy(alloc, original)? {
            return Ok(files);
        }
    }
    Err(Trouble::Unsteady)
}

/// One try: a copy, if it was steady.
fn try_copy<O: Original>(alloc: Global, original: &mut O) -> Result<Option<Files<Memory>>, Trouble>
    ensures usable { IfOk result (λ copy. IfSome copy (λ files.
        IsTrue (memory_is_usable files.log) × IsTrue (memory_is_usable files.db))) }
    ensures tried { O.Tells → IfOk result (λ copy. MatchOption copy
        (IsUnsteadyTry (O.readings original.old) (O.readings original.new))
        (λ files. IsSteadyTry (memory_bytes files.log) (memory_bytes files.db)
        (O.readings original.old) (O.readings original.new))) }
    ensures trouble { IfErr result IsOfReading }
{
    let header = original.header(alloc)?;
    let db = original.file(alloc)?;
    let log = original.log(alloc)?;
    if is_as_before(alloc, original, header.bytes(), db.bytes())? {
        Ok(Some(Files { log, db }))
    } else {
        Ok(None)
    }
}

/// Whether the file and the log's header are these now, which were read before.
fn is_as_before<O: Original>(
    alloc: Global,
    original: &mut O,
    header: &[u8],
    file: &[u8],
) -> Result<bool, Trouble>
    ensures told { O.Tells → IfOk result (λ same. IsReadAgain header.now file.now same
        (O.readings original.old) (O.readings original.new)) }
    ensures trouble { IfErr result IsOfReading }
{
    let later_file = original.file(alloc)?;
    let later_header = original.header(alloc)?;
    Ok(is_steady(header, later_header.bytes(), file, later_file.bytes()))
}

/// Whether the log's header and the file are later what they were.
fn is_steady(header: &[u8], later_header: &[u8], file: &[u8], later_file: &[u8]) -> bool
    ensures { Decides result ((later_header.now ≡ header.now) × (later_file.now ≡ file.now)) }
{
    *later_header == *header && *later_file == *file
}
