//! A file that takes the place of another.
ghost use Rattle.std.specs.Prelude.{◌≡◌, ◌≤◌, ◌++◌, [], length, take, IsTrue, IfNone, IfOk, OnOk, OnErr};
ghost use Rattle.std.specs.Io.KnownBytes.{Consumes, IsAtEnd};
ghost use Rattle.reg_pages.specs.Portions.{GivesIfMore};
ghost use Rattle.reg_source.specs.Copied.{IsCompared, IsCopied};
ghost use Rattle.sha2.specs.Sha256.{sha256};
ghost use Rattle.reg_source.specs.Disk.{IsLeft, IsPut, IsStopped, StaysBeside, begins, names_of, names_within, replaces};
ghost use Rattle.reg_source.specs.Hashed.{FeedsHasher, FeedsTaken};
ghost use Rattle.reg_source.specs.Names.{names_by};

use crate::disk::Disk;
use crate::unpublished::{Unpublished, unwritten};
use reg_pages::portions::Portions;
use reg_site::files::File;
use sha2::{Digest, Sha256};
use std::alloc::{AllocError, Global};
use std::io::Read;

/// How many bytes are gathered before they are compared or written.
const GATHERED_BYTES: usize = 16_384;

/// How many bytes are compared or copied at once.
const COMPARED_BYTES: usize = 16_384;

/// The names of a file that is to take a place.
#[derive(Drop)]
pub struct Names {
    /// Where it is to be.
    pub place: String,
    /// Where it is made.
    pub beside: String,
    /// The folder of both.
    pub folder: String,
}

impl Names {
    /// Those of a file of this name, in a folder at a path. Only want of memory is an error.
    pub fn within(alloc: Global, folder: &str, name: &str) -> Result<Self, AllocError>
        ensures { IfOk result (λ names. names_by names ≡ names_within folder.now name.now) }
    {
        let place = format!(in alloc; "{folder}/{name}")?;
        let beside = format!(in alloc; "{folder}/.{name}.new")?;
        let folder = String::from_str(alloc, folder)?;
        Ok(Names {
            place,
            beside,
            folder,
        })
    }

    /// Those of a file of a site, in a folder at a path. Only want of memory is an error.
    pub(crate) fn of(alloc: Global, path: &str, file: File) -> Result<Self, AllocError>
        ensures { IfOk result (λ names. names_by names ≡ names_of path.now file) }
    {
        let within = file.path(alloc)?;
        let place = format!(in alloc; "{path}/{within}")?;
        let inner = file.folder();
        let beside = format!(in alloc; "{path}/{inner}.new")?;
        let folder = format!(in alloc; "{path}/{inner}")?;
        Ok(Names {
            place,
            beside,
            folder,
        })
    }
}

/// Lets these bytes take a place, in a file of their own, whatever is there. Where that fails, what is
/// beside the place is removed.
pub fn replace<D: Disk, P: Portions>(
    disk: &mut D,
    alloc: Global,
    names: &Names,
    bytes: &mut P,
) -> Result<(), Unpublished>
    ensures done { D.Tells → OnOk result (D.done disk.new
        ≡ D.done disk.old ++ replaces (names_by names.now) (P.rest bytes.old)) }
    ensures failed { D.Tells → OnErr result (IsLeft (names_by names.now) (P.rest bytes.old)
        (D.done disk.old) (D.done disk.new)) }
{
    let mut hasher = Sha256::new();
    match write(disk, names, 0, &mut Vec::new(alloc), bytes, &mut hasher) {
        Ok(()) => Ok(()),
        Err(why) => {
            disk.remove(names.beside.as_str());
            Err(why)
        }
    }
}

/// Lets these bytes take a place, and gives their SHA-256. Where the file that is there has all of them, and no
/// other, nothing is done.
pub(crate) fn put<D: Disk, P: Portions>(
    disk: &mut D,
    alloc: Global,
    names: &Names,
    bytes: &mut P,
) -> Result<[u8; 32], Unpublished>
    ensures done { D.Tells → OnOk result (IsPut (names_by names.now)
        (D.held disk.old (names_by names.now).place) (P.rest bytes.old) (D.done disk.old)
        (D.done disk.new)) }
    ensures hash { IfOk result (λ hash. hash ≡ sha256 (P.rest bytes.old)) }
    ensures failed { D.Tells → OnErr result (IsStopped (names_by names.now) (P.rest bytes.old)
        (D.done disk.old) (D.done disk.new)) }
{
    let mut hasher = Sha256::new();
    match put_hashed(disk, alloc, names, bytes, &mut hasher) {
        Ok(()) => Ok(hasher.finalize()),
        Err(why) => Err(why),
    }
}

// The same, with a hasher that is fed with the bytes.
fn put_hashed<D: Disk, P: Portions>(
    disk: &mut D,
    alloc: Global,
    names: &Names,
    bytes: &mut P,
    hasher: &mut Sha256,
) -> Result<(), Unpublished>
    ensures done { D.Tells → OnOk result (IsPut (names_by names.now)
        (D.held disk.old (names_by names.now).place) (P.rest bytes.old) (D.done disk.old)
        (D.done disk.new)) }
    ensures fed { OnOk result (FeedsHasher hasher.old hasher.new (P.rest bytes.old)) }
    ensures failed { D.Tells → OnErr result (IsStopped (names_by names.now) (P.rest bytes.old)
        (D.done disk.old) (D.done disk.new)) }
{
    let mut gathered = Vec::with_capacity(alloc, GATHERED_BYTES)?;
    let Some(mut reader) = disk.open(names.place.as_str()) else {
        return write(disk, names, 0, &mut gathered, bytes, hasher);
    };
    match compared(&mut reader, &mut gathered, bytes, hasher)? {
        Some(same) => write(disk, names, same, &mut gathered, bytes, hasher),
        None => Ok(()),
    }
}

// Compares bytes with those that a reader gives, and gathers the first that are not the same: tells
// how many are the same before them; none where all are, and the reader gives no other.
fn compared<R: Read, P: Portions>(
    reader: &mut R,
    gathered: &mut Vec<u8>,
    bytes: &mut P,
    hasher: &mut Sha256,
) -> Result<Option<u64>, Unpublished>
    ensures same { IfOk result (λ same. IsCompared same (R.remaining reader.old)
        gathered.new.items (P.rest bytes.old) (P.rest bytes.new)) }
    ensures fed { OnOk result
        (FeedsTaken hasher.old hasher.new (P.rest bytes.old) (P.rest bytes.new)) }
    ensures all { IfOk result (λ same. IfNone same (P.rest bytes.new ≡ [])) }
{
    let mut same = 0u64;
    while gather_hashed(bytes, gathered, hasher)? {
        if !goes_on(reader, gathered) {
            return Ok(Some(same));
        }
        let Some(more) = same.checked_add(gathered.len() as u64) else {
            return Err(Unpublished::Write);
        };
        same = more;
    }
    if is_at_end(reader) {
        Ok(None)
    } else {
        Ok(Some(same))
    }
}

// Gathers the next bytes, tells whether there are any, and feeds a hasher with them.
fn gather_hashed<P: Portions>(
    bytes: &mut P,
    gathered: &mut Vec<u8>,
    hasher: &mut Sha256,
) -> Result<bool, AllocError>
    ensures more { IfOk result
        (λ more. GivesIfMore more [] gathered.new.items (P.rest bytes.old) (P.rest bytes.new)) }
    ensures fed { OnOk result
        (FeedsTaken hasher.old hasher.new (P.rest bytes.old) (P.rest bytes.new)) }
{
    let more = gather(bytes, gathered)?;
    hasher.update(gathered.as_slice());
    Ok(more)
}

// Gathers the next bytes, and tells whether there are any.
fn gather<P: Portions>(bytes: &mut P, gathered: &mut Vec<u8>) -> Result<bool, AllocError>
    ensures { IfOk result
        (λ more. GivesIfMore more [] gathered.new.items (P.rest bytes.old) (P.rest bytes.new)) }
{
    gathered.clear();
    while bytes.push_next(gathered)? {
        if gathered.len() >= GATHERED_BYTES {
            return Ok(true);
        }
    }
    Ok(!gathered.is_empty())
}

// Writes a file beside its place, with so many bytes of the file that is there, those that were
// gathered, and those that are still to be given, with which a hasher is fed; has it kept, and lets it take the
// place.
fn write<D: Disk, P: Portions>(
    disk: &mut D,
    names: &Names,
    same: u64,
    gathered: &mut Vec<u8>,
    bytes: &mut P,
    hasher: &mut Sha256,
) -> Result<(), Unpublished>
    ensures done { D.Tells → OnOk result (D.done disk.new ≡ D.done disk.old ++ replaces
        (names_by names.now) (take same (D.held disk.old (names_by names.now).place)
        ++ (gathered.old.items ++ P.rest bytes.old))) }
    ensures fed { OnOk result (FeedsHasher hasher.old hasher.new (P.rest bytes.old)) }
    ensures failed { D.Tells → OnErr result (IsStopped (names_by names.now)
        (take same (D.held disk.old (names_by names.now).place)
        ++ (gathered.old.items ++ P.rest bytes.old)) (D.done disk.old) (D.done disk.new)) }
{
    let mut draft = begun(disk, names, same)?;
    disk.add(&mut draft, gathered)?;
    while gather_hashed(bytes, gathered, hasher)? {
        disk.add(&mut draft, gathered)?;
    }
    disk.keep(draft)?;
    disk.rename(names.beside.as_str(), names.place.as_str())?;
    disk.keep_names(names.folder.as_str())
}

// A new file beside a place, with so many bytes of the file that is there.
fn begun<D: Disk>(disk: &mut D, names: &Names, same: u64) -> Result<D::Draft, Unpublished>
    ensures named { D.Tells → IfOk result (λ draft. D.named draft ≡ (names_by names.now).beside) }
    ensures copied { D.Tells → IfOk result (λ draft. D.written draft
        ≡ take same (D.held disk.old ((names_by names.now).place))) }
    ensures done { D.Tells → OnOk result
        (D.done disk.new ≡ D.done disk.old ++ begins (names_by names.now)) }
    ensures failed { D.Tells → OnErr result (StaysBeside ((names_by names.now).beside)
        (D.done disk.old) (D.done disk.new)) }
{
    if same == 0 {
        return created(disk, names);
    }
    let Some(mut reader) = disk.open(names.place.as_str()) else {
        return Err(Unpublished::Write);
    };
    let mut draft = created(disk, names)?;
    copy(disk, &mut reader, same, &mut draft)?;
    Ok(draft)
}

// A new file beside a place. What a job that was ended left there goes.
fn created<D: Disk>(disk: &mut D, names: &Names) -> Result<D::Draft, Unpublished>
    ensures named { D.Tells → IfOk result (λ draft. D.named draft ≡ (names_by names.now).beside) }
    ensures empty { D.Tells → IfOk result (λ draft. D.written draft ≡ []) }
    ensures done { D.Tells → OnOk result
        (D.done disk.new ≡ D.done disk.old ++ begins (names_by names.now)) }
    ensures failed { D.Tells → OnErr result (StaysBeside ((names_by names.now).beside)
        (D.done disk.old) (D.done disk.new)) }
{
    disk.remove(names.beside.as_str());
    disk.create(names.beside.as_str())
}

// Adds so many bytes of a reader to a new file.
fn copy<D: Disk>(
    disk: &D,
    reader: &mut D::Reader,
    count: u64,
    draft: &mut D::Draft,
) -> Result<(), Unpublished>
    ensures named { D.Tells → D.named draft.new ≡ D.named draft.old }
    ensures copied { D.Tells → OnOk result (IsCopied (D.Reader.remaining reader.old)
        (D.Reader.remaining reader.new) (D.written draft.old) (D.written draft.new) count) }
{
    let mut piece = [0; COMPARED_BYTES];
    let mut left = count;
    while left > 0 {
        let part = &mut piece[..left.min(COMPARED_BYTES as u64) as usize];
        reader.read_exact(part).map_err(unwritten)?;
        disk.add(draft, part)?;
        left -= part.len() as u64;
    }
    Ok(())
}

// Whether a reader gives these bytes next; it is asked for no more.
fn goes_on<R: Read>(reader: &mut R, bytes: &[u8]) -> bool
    ensures { IsTrue result
        → Consumes (R.remaining reader.old) (R.remaining reader.new) bytes.now }
{
    let mut rest = bytes;
    while !rest.is_empty() {
        let (wanted, more) = rest.split_at(rest.len().min(COMPARED_BYTES));
        if !gives(reader, wanted) {
            return false;
        }
        rest = more;
    }
    true
}

fn gives<R: Read>(reader: &mut R, wanted: &[u8]) -> bool
    requires { length wanted.now ≤ COMPARED_BYTES }
    ensures { IsTrue result
        → Consumes (R.remaining reader.old) (R.remaining reader.new) wanted.now }
{
    let mut read = [0; COMPARED_BYTES];
    let given = &mut read[..wanted.len()];
    match reader.read_exact(given) {
        Ok(()) => *given == *wanted,
        Err(_) => false,
    }
}

// Whether a reader has no byte more.
fn is_at_end<R: Read>(reader: &mut R) -> bool
    ensures { IsTrue result → IsAtEnd (R.remaining reader.old) }
{
    matches!(reader.read(&mut [0]), Ok(0))
}
