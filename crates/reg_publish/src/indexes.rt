//! Publishes the last changes and the indexes.
ghost use Rattle.std.specs.Prelude.{◌≡◌, List, map, IfOk, OnOk};
ghost use Rattle.std.specs.Option.{option_copied};
ghost use Rattle.reg_publish.specs.Folder.{PlacesSummed};
ghost use Rattle.reg_publish.specs.Told.{changes_of, indexes_by, pages_of};
ghost use Rattle.reg_history.specs.Overview.{IsOverview, moment_by};
ghost use Rattle.reg_pages.specs.Noted.{noted_in};
ghost use Rattle.reg_pages.specs.Notes.{authority};
ghost use Rattle.reg_site.specs.IndexTree.{row_of};
ghost use Rattle.reg_site.specs.Site.{site_title as title_by};
ghost use Rattle.reg_site.specs.Summary.{summary};

use crate::placing::put_bytes;
use reg_blocks::pool::Pool;
use reg_changes::change::HistoryRecord;
use reg_core::holding::Listed;
use reg_core::told::Told;
use reg_history::moment::moment_text;
use reg_history::overview::Overview;
use reg_pages::noted::note_on;
use reg_pages::notes::{AUTHORITY, Notes};
use reg_site::changes::{changes_feed, changes_page};
use reg_site::files::File;
use reg_site::index::index_page;
use reg_site::index_tree::{Register, index_tree};
use reg_site::recent::{feed_id, last_changes, text_of};
use reg_site::records::title_of;
use reg_site::summary::Summary;
use reg_site::sums::Sums;
use reg_source::folder::Folder;
use reg_source::told::page_in;
use reg_source::unpublished::Unpublished;
use std::alloc::{AllocError, Global};

/// Publishes the page of the last changes, and their feed.
pub(crate) fn publish_changes<F: Folder>(
    alloc: Global,
    folder: &mut F,
    sums: &mut Sums,
    notes: Option<&Notes>,
    overview: &Overview,
) -> Result<(), Unpublished>
    ensures { OnOk result ((records : List HistoryRecord) → IsOverview overview.now records
        → PlacesSummed F.Puts folder.old folder.new sums.old sums.new
        (changes_of (option_copied notes.entry) records)) }
{
    let changes = last_changes(alloc, overview)?;
    let html = changes_page(alloc, notes, changes.as_slice())?;
    put_bytes(alloc, folder, sums, File::ChangesPage, &html)?;
    drop(html);
    let id = feed_id(alloc, overview.first_digest())?;
    let feed = changes_feed(alloc, site_title(notes), id.as_str(), changes.as_slice())?;
    put_bytes(alloc, folder, sums, File::ChangesFeed, &feed)?;
    Ok(())
}

/// Publishes the first page and the index for programs, as of a moment in seconds since
/// 1970-01-01T00:00:00Z.
pub(crate) fn publish_indexes<F: Folder>(
    alloc: Global,
    folder: &mut F,
    sums: &mut Sums,
    notes: Option<&Notes>,
    registers: &[Register<'_>],
    overview: &Overview,
    pool: &Pool,
    blocks: &[Listed],
    moment: u64,
) -> Result<(), Unpublished>
    ensures { OnOk result ((records : List HistoryRecord) → IsOverview overview.now records
        → PlacesSummed F.Puts folder.old folder.new sums.old sums.new
        (indexes_by (option_copied notes.entry) records (map row_of registers.now) pool.now
        blocks.now moment)) }
{
    let html = index_page(alloc, notes, registers, pool, blocks, moment)?;
    put_bytes(alloc, folder, sums, File::Index, &html)?;
    drop(html);
    let now = moment_text(alloc, moment)?;
    let tree = index_tree(
        alloc,
        site_title(notes),
        now.as_str(),
        overview.count,
        text_of(overview.last_digest()),
        registers,
    )?;
    put_bytes(alloc, folder, sums, File::IndexTree, &tree)?;
    Ok(())
}

// The title of the site.
fn site_title(notes: Option<&Notes>) -> &str
    ensures { result.now ≡ title_by (noted_in (option_copied notes.entry) authority) }
{
    title_of(note_on(notes, AUTHORITY), "Registries")
}

/// What is told of each registry beside others.
pub(crate) fn summaries(alloc: Global, pages: &[Told]) -> Result<Vec<Summary>, Unpublished>
    ensures { IfOk result (λ v. v.items ≡ map summary (pages_of pages.now)) }
{
    let mut summaries = Vec::new(alloc);
    for told in pages {
        summaries.push(Summary::of(alloc, page_in(told)?)?)?;
    }
    Ok(summaries)
}

/// Registries beside others, each with the moment of its last change by a history. Only want of memory is
/// an error.
pub(crate) fn registers<'a>(
    alloc: Global,
    summaries: &'a [Summary],
    overview: &'a Overview,
) -> Result<Vec<Register<'a>>, AllocError>
    ensures { IfOk result (λ v. map row_of v.items
        ≡ map (λ s. (s, moment_by overview.now.changed s.name)) summaries.now) }
{
    let mut registers = Vec::new(alloc);
    for summary in summaries {
        registers.push(Register {
            summary,
            changed: overview.last_changed(alloc, summary.name.as_str())?,
        })?;
    }
    Ok(registers)
}
