//! Publishes the files of registries, of blocks and of the pool.
ghost use Rattle.std.specs.Prelude.{◌≡◌, List, OnOk, IfOk};
ghost use Rattle.std.specs.List.{flat_map};
ghost use Rattle.std.specs.Option.{option_copied};
ghost use Rattle.reg_core.specs.declared.told.Told.TheVariants as tells;
ghost use Rattle.reg_history.specs.Overview.{IsOverview};
ghost use Rattle.reg_publish.specs.Folder.{PlacesSummed};
ghost use Rattle.reg_publish.specs.Told.{pages_of};
ghost use Rattle.reg_pages.specs.Blocks.{assignments_text};
ghost use Rattle.reg_pages.specs.Noted.{apply_lines};
ghost use Rattle.reg_site.specs.Records.{records_text};
ghost use Rattle.reg_site.specs.Registry.{registry_page};
ghost use Rattle.reg_site.specs.Site.{block_files, one_file, page_files, pool_files, told_text};
ghost use Rattle.reg_site.specs.declared.files.File.TheVariants as file;

use crate::placing::{put, put_bytes};
use reg_blocks::pool::Pool;
use reg_blocks::size::Size;
use reg_changes::change::HistoryRecord;
use reg_core::holding::Listed;
use reg_core::page::Page;
use reg_core::reply::Reply;
use reg_core::told::Told;
use reg_history::overview::Overview;
use reg_pages::blocks::{BlocksPage, assignments};
use reg_pages::notes::Notes;
use reg_print::answer::{Answer, body_of};
use reg_print::listing::blocks::block_listing;
use reg_site::files::File;
use reg_site::listing::RegistryCsv;
use reg_site::recent::day_part;
use reg_site::records::RegistryRecords;
use reg_site::registry::RegistryPage;
use reg_site::style::style;
use reg_site::sums::Sums;
use reg_site::tree::RegistryTree;
use reg_source::folder::Folder;
use reg_source::told::page_in;
use reg_source::unpublished::Unpublished;
use std::alloc::{AllocError, Global};

/// Publishes the files of each registry that was told, in turn.
pub(crate) fn publish_registries<F: Folder>(
    alloc: Global,
    folder: &mut F,
    sums: &mut Sums,
    notes: Option<&Notes>,
    overview: &Overview,
    pages: &[Told],
) -> Result<(), Unpublished>
    ensures { OnOk result ((records : List HistoryRecord) → IsOverview overview.now records
        → PlacesSummed F.Puts folder.old folder.new sums.old sums.new
        (flat_map (page_files (option_copied notes.entry) records) (pages_of pages.now))) }
{
    for told in pages {
        publish_registry(alloc, folder, sums, notes, overview, page_in(told)?)?;
    }
    Ok(())
}

// The page of a registry, its listing, its JSON and its XML.
fn publish_registry<F: Folder>(
    alloc: Global,
    folder: &mut F,
    sums: &mut Sums,
    notes: Option<&Notes>,
    overview: &Overview,
    page: &Page,
) -> Result<(), Unpublished>
    ensures { OnOk result ((records : List HistoryRecord) → IsOverview overview.now records
        → PlacesSummed F.Puts folder.old folder.new sums.old sums.new
        (page_files (option_copied notes.entry) records page.now)) }
{
    let changed = overview.last_changed(alloc, page.name.as_str())?;
    put_page(alloc, folder, sums, notes, changed, page)?;
    put_listing(alloc, folder, sums, page)?;
    put(
        alloc,
        folder,
        sums,
        File::RegistryTree(page.name),
        &mut RegistryTree::of(page),
    )?;
    put_records(alloc, folder, sums, notes, day_part(changed), page)?;
    Ok(())
}

fn put_page<F: Folder>(
    alloc: Global,
    folder: &mut F,
    sums: &mut Sums,
    notes: Option<&Notes>,
    changed: &str,
    page: &Page,
) -> Result<(), Unpublished>
    ensures { OnOk result (PlacesSummed F.Puts folder.old folder.new sums.old sums.new
        (one_file (file.RegistryPage page.now.name)
        (registry_page (option_copied notes.entry) changed.now page.now))) }
{
    let mut html = RegistryPage::of(alloc, page, notes, changed)?;
    put(
        alloc,
        folder,
        sums,
        File::RegistryPage(page.name),
        &mut html,
    )
}

fn put_listing<F: Folder>(
    alloc: Global,
    folder: &mut F,
    sums: &mut Sums,
    page: &Page,
) -> Result<(), Unpublished>
    ensures { OnOk result (PlacesSummed F.Puts folder.old folder.new sums.old sums.new
        (one_file (file.RegistryCsv page.now.name) (told_text (tells.Sheet page.now)))) }
{
    let mut csv = RegistryCsv::of(alloc, page)?;
    put(alloc, folder, sums, File::RegistryCsv(page.name), &mut csv)
}

fn put_records<F: Folder>(
    alloc: Global,
    folder: &mut F,
    sums: &mut Sums,
    notes: Option<&Notes>,
    day: &str,
    page: &Page,
) -> Result<(), Unpublished>
    ensures { OnOk result (PlacesSummed F.Puts folder.old folder.new sums.old sums.new
        (one_file (file.RegistryRecords page.now.name)
        (records_text (option_copied notes.entry) day.now page.now))) }
{
    let mut xml = RegistryRecords::of(alloc, page, notes, day)?;
    put(
        alloc,
        folder,
        sums,
        File::RegistryRecords(page.name),
        &mut xml,
    )
}

// ---- Blocks and the pool

/// Publishes the page of the blocks, their listing, and a file for each size.
pub(crate) fn publish_blocks<F: Folder>(
    alloc: Global,
    folder: &mut F,
    sums: &mut Sums,
    notes: Option<&Notes>,
    blocks: &[Listed],
) -> Result<(), Unpublished>
    ensures { OnOk result (PlacesSummed F.Puts folder.old folder.new sums.old sums.new
        (block_files (apply_lines (option_copied notes.entry)) blocks.now)) }
{
    let mut html = BlocksPage::of(blocks, notes);
    put(alloc, folder, sums, File::BlocksPage, &mut html)?;
    put_block_listing(alloc, folder, sums, blocks)?;
    put_size(alloc, folder, sums, Size::MaL, blocks)?;
    put_size(alloc, folder, sums, Size::MaM, blocks)?;
    put_size(alloc, folder, sums, Size::MaS, blocks)?;
    Ok(())
}

fn put_block_listing<F: Folder>(
    alloc: Global,
    folder: &mut F,
    sums: &mut Sums,
    blocks: &[Listed],
) -> Result<(), Unpublished>
    ensures { OnOk result (PlacesSummed F.Puts folder.old folder.new sums.old sums.new
        (one_file file.BlocksListing (told_text (tells.Blocks blocks.now)))) }
{
    let csv = block_listing(alloc, blocks)?;
    put_bytes(alloc, folder, sums, File::BlocksListing, &csv)
}

fn put_size<F: Folder>(
    alloc: Global,
    folder: &mut F,
    sums: &mut Sums,
    size: Size,
    blocks: &[Listed],
) -> Result<(), Unpublished>
    ensures { OnOk result (PlacesSummed F.Puts folder.old folder.new sums.old sums.new
        (one_file (file.Assignments size) (assignments_text size blocks.now))) }
{
    let csv = assignments(alloc, size, blocks)?;
    put_bytes(alloc, folder, sums, File::Assignments(size), &csv)
}

/// Publishes what is told of the pool, and how pages look.
pub(crate) fn publish_pool<F: Folder>(
    alloc: Global,
    folder: &mut F,
    sums: &mut Sums,
    pool: &Pool,
) -> Result<(), Unpublished>
    ensures { OnOk result (PlacesSummed F.Puts folder.old folder.new sums.old sums.new
        (pool_files pool.now)) }
{
    let tree = text_of(alloc, Told::Pool(pool.copy()?))?;
    put_bytes(alloc, folder, sums, File::Pool, &tree)?;
    put_bytes(alloc, folder, sums, File::Style, style().as_bytes())?;
    Ok(())
}

// The body by which an office answers this.
fn text_of(alloc: Global, told: Told) -> Result<Vec<u8>, AllocError>
    ensures { IfOk result (λ body. body.items ≡ told_text told) }
{
    let (_, body) = body_of(alloc, &Answer::Reply(Reply::Accepted(told)))?;
    Ok(body)
}
