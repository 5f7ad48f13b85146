//! The files of a published folder, as what they tell.
ghost use Rattle.std.specs.Prelude.{◌≡◌, Some, None, IfOk, IfErr};
ghost use Rattle.reg_core.specs.declared.told.Told.TheVariants as tells;
ghost use Rattle.reg_site.specs.Site.{told_text};
ghost use Rattle.reg_client.specs.Reading.{IsToldBy};
ghost use Rattle.reg_verify.specs.declared.flaw.Unverified.TheVariants as un;
ghost use Rattle.reg_verify.specs.Strays.{Lists};
ghost use Rattle.reg_verify.specs.Verifying.{Finds, TellsWhy};

use crate::flaw::{FolderFlaw, Unverified};
use crate::folder::Reads;
use crate::part::FolderPart;
use reg_blocks::pool::Pool;
use reg_client::reading::told_of;
use reg_core::command::PublicCommand;
use reg_core::holding::Listed;
use reg_core::page::Page;
use reg_core::told::Told;
use reg_source::unpublished::Unpublished;
use std::alloc::Global;

/// The bytes of a file, which has to be there.
pub(crate) fn bytes_of<F: Reads>(
    alloc: Global,
    folder: &F,
    file: &FolderPart,
) -> Result<Vec<u8>, Unverified>
    ensures bytes { IfOk result
        (λ bytes. Finds F.Tells F.held folder.now file.now (Some bytes.items)) }
    ensures why { IfErr result (TellsWhy (Finds F.Tells F.held folder.now)
        (Lists F.Tells F.listed folder.now) None) }
{
    let place = file.place(alloc)?;
    match folder.read(alloc, place.as_str())? {
        Some(bytes) => Ok(bytes),
        None => Err(Unverified::Flawed(FolderFlaw::Missing(*file))),
    }
}

/// The page that is told.
pub(crate) fn page_in(told: &Told) -> Result<&Page, Unverified>
    ensures page { IfOk result (λ page. told.now ≡ tells.Page page.now) }
    ensures why { IfErr result (λ why. why ≡ un.Read) }
{
    match told {
        Told::Page(page) => Ok(page),
        _ => Err(Unverified::Read),
    }
}

/// The prefixes of the pool that is told.
pub(crate) fn pool_in(told: &Told) -> Result<&Pool, Unverified>
    ensures pool { IfOk result (λ pool. told.now ≡ tells.Pool pool.now) }
    ensures why { IfErr result (λ why. why ≡ un.Read) }
{
    match told {
        Told::Pool(pool) => Ok(pool),
        _ => Err(Unverified::Read),
    }
}

/// The blocks that are told.
pub(crate) fn blocks_in(told: &Told) -> Result<&[Listed], Unverified>
    ensures rows { IfOk result (λ rows. told.now ≡ tells.Blocks rows.now) }
    ensures why { IfErr result (λ why. why ≡ un.Read) }
{
    match told {
        Told::Blocks(rows) => Ok(rows.as_slice()),
        _ => Err(Unverified::Read),
    }
}

/// What a file tells, which has the bytes of the answer to this command.
pub(crate) fn told_in<F: Reads>(
    alloc: Global,
    folder: &F,
    file: &FolderPart,
    command: &PublicCommand,
) -> Result<Told, Unverified>
    ensures told { IfOk result
        (λ told. Finds F.Tells F.held folder.now file.now (Some (told_text told))) }
    ensures asked { IfOk result (IsToldBy command.now) }
    ensures why { IfErr result (TellsWhy (Finds F.Tells F.held folder.now)
        (Lists F.Tells F.listed folder.now) None) }
{
    let bytes = bytes_of(alloc, folder, file)?;
    match told_of(alloc, command, bytes.as_slice()) {
        Ok(told) => Ok(told),
        Err(Unpublished::Memory) => Err(Unverified::Memory),
        Err(_) => Err(Unverified::Flawed(FolderFlaw::Misspelt(*file))),
    }
}
