//! Files that are put into a folder, with their sums.
ghost use Rattle.std.specs.Prelude.{◌≡◌, OnOk};
ghost use Rattle.reg_publish.specs.Folder.{Places, PlacesSummed};
ghost use Rattle.reg_site.specs.Site.{one_file};
ghost use Rattle.reg_site.specs.Sums.{entries_of, lines_of};
ghost use Rattle.reg_site.specs.declared.files.File.TheVariants as file;

use reg_pages::portions::{Portions, Whole};
use reg_site::files::File;
use reg_site::sums::Sums;
use reg_source::folder::Folder;
use reg_source::unpublished::Unpublished;
use std::alloc::Global;

/// Puts a file with these bytes into a folder, and adds its sum.
pub(crate) fn put_bytes<F: Folder>(
    alloc: Global,
    folder: &mut F,
    sums: &mut Sums,
    file: File,
    bytes: &[u8],
) -> Result<(), Unpublished>
    ensures { OnOk result (PlacesSummed F.Puts folder.old folder.new sums.old sums.new
        (one_file file bytes.now)) }
{
    put(alloc, folder, sums, file, &mut Whole::of(bytes))
}

/// Puts a file with the bytes that are given into a folder, and adds its sum.
pub(crate) fn put<F: Folder, P: Portions>(
    alloc: Global,
    folder: &mut F,
    sums: &mut Sums,
    file: File,
    bytes: &mut P,
) -> Result<(), Unpublished>
    ensures { OnOk result (PlacesSummed F.Puts folder.old folder.new sums.old sums.new
        (one_file file (P.rest bytes.old))) }
{
    let hash = folder.publish(file, bytes)?;
    let path = file.path(alloc)?;
    sums.add(alloc, path.as_str(), &hash)?;
    Ok(())
}

/// Puts the sums of all files into a folder.
pub(crate) fn put_sums<F: Folder>(
    alloc: Global,
    folder: &mut F,
    sums: Sums,
) -> Result<(), Unpublished>
    ensures { OnOk result (Places F.Puts folder.old folder.new
        (one_file file.Sums (lines_of (entries_of sums)))) }
{
    let text = sums.text(alloc)?;
    folder.publish(File::Sums, &mut Whole::of(text.as_slice()))?;
    Ok(())
}
