//! The first page of the site.
ghost use Rattle.std.specs.Prelude.{◌≡◌, map, IfOk, OnOk};
ghost use Rattle.std.specs.Option.{option_copied};
ghost use Rattle.reg_pages.specs.Appended.{Appended, Shown};
ghost use Rattle.reg_pages.specs.Markup.{all_of};
ghost use Rattle.reg_site.specs.IndexTree.{row_of};
ghost use Rattle.reg_site.specs.Index.{block_counts, index_page, name_start, pool_list, prefix_item, prefixes_shown, register_row, registries_shown, registries_table, registry_row, share_item, share_texts, size_item, top};

use crate::index_tree::Register;
use crate::policy::treatment_name;
use crate::records::title_of;
use crate::summary::{RangeShare, Summary};
use reg_blocks::pool::Pool;
use reg_blocks::prefix;
use reg_blocks::size::Size;
use reg_core::holding::Listed;
use reg_history::moment::moment_text;
use reg_pages::blocks::count_of;
use reg_pages::document::{push_end, push_start};
use reg_pages::markup::Piece::{Link, Markup, Number, Text};
use reg_pages::markup::{push, push_all, push_framed};
use reg_pages::note::Note;
use reg_pages::noted::{note_on, push_apply, title_in, words_in};
use reg_pages::notes::{AUTHORITY, Notes};
use std::alloc::{AllocError, Global};

// The table of the registries up to its rows.
const COLUMNS: &str = "\
    <table class=\"registries\"><caption>Registries</caption><thead><tr>\
    <th scope=\"col\">Registry</th><th scope=\"col\">Policies</th><th scope=\"col\">Assigned</th>\
    <th scope=\"col\">Temporary</th><th scope=\"col\">Expired</th><th scope=\"col\">Free</th>\
    </tr></thead><tbody>";

/// The first page: the moment, in seconds since 1970-01-01T00:00:00Z; what is noted about the authority,
/// which is its title, where to apply, and what else it says; the registries with the titles that are
/// noted, the policies of their ranges, their counts and the moments of their last changes; the prefixes
/// of the pool; and how many blocks were given. Only want of memory is an error.
pub fn index_page(
    alloc: Global,
    notes: Option<&Notes>,
    registers: &[Register<'_>],
    pool: &Pool,
    blocks: &[Listed],
    moment: u64,
) -> Result<Vec<u8>, AllocError>
    ensures { IfOk result
        (λ v. v.items
        ≡ index_page (option_copied notes.entry) (map row_of registers.now) pool.now blocks.now
        moment) }
{
    page_of(alloc, notes, registers, pool.prefixes(), blocks, moment)
}

fn page_of(
    alloc: Global,
    notes: Option<&Notes>,
    registers: &[Register<'_>],
    prefixes: &[u32],
    blocks: &[Listed],
    moment: u64,
) -> Result<Vec<u8>, AllocError>
    ensures { IfOk result
        (λ v. v.items
        ≡ index_page (option_copied notes.entry) (map row_of registers.now)
        prefixes.now blocks.now moment) }
{
    let authority = note_on(notes, AUTHORITY);
    let title = title_of(authority, "Registries");
    let mut out = Vec::new(alloc);
    push_start(&mut out, "style.css", "changes.atom", title)?;
    push_top(&mut out, alloc, moment)?;
    push_framed(&mut out, "<p>", words_in(authority), "</p>")?;
    push_apply(&mut out, notes)?;
    push_registries(&mut out, alloc, notes, registers)?;
    push_pool(&mut out, alloc, prefixes)?;
    push_blocks(&mut out, blocks)?;
    push_end(&mut out)?;
    Ok(out)
}

// Links to the other pages and to the index for programs, and the moment.
fn push_top(out: &mut Vec<u8>, alloc: Global, moment: u64) -> Result<(), AllocError>
    ensures { OnOk result (Shown out.old.items out.new.items (top moment)) }
{
    let text = moment_text(alloc, moment)?;
    push_all(
        out,
        &[
            Markup("<p><a href=\"blocks.html\">Blocks</a> <a href=\"changes.html\">Changes</a> "),
            Markup("<a href=\"index.json\">JSON</a></p><p>As of <time>"),
            Text(text.as_str()),
            Markup("</time></p>"),
        ],
    )?;
    Ok(())
}

fn push_registries(
    out: &mut Vec<u8>,
    alloc: Global,
    notes: Option<&Notes>,
    registers: &[Register<'_>],
) -> Result<(), AllocError>
    ensures { OnOk result
        (Shown out.old.items out.new.items (registries_shown
        (map (register_row (option_copied notes.entry)) (map row_of registers.now)))) }
{
    match registers.first() {
        None => push(out, "<p>There are no registries yet.</p>"),
        Some(_) => push_table(out, alloc, notes, registers),
    }
}

fn push_table(
    out: &mut Vec<u8>,
    alloc: Global,
    notes: Option<&Notes>,
    registers: &[Register<'_>],
) -> Result<(), AllocError>
    ensures { OnOk result
        (Shown out.old.items out.new.items (registries_table
        (map (register_row (option_copied notes.entry)) (map row_of registers.now)))) }
{
    push(out, COLUMNS)?;
    push_registry_rows(out, alloc, notes, registers)?;
    push(out, "</tbody></table>")?;
    Ok(())
}

fn push_registry_rows(
    out: &mut Vec<u8>,
    alloc: Global,
    notes: Option<&Notes>,
    registers: &[Register<'_>],
) -> Result<(), AllocError>
    ensures { OnOk result
        (Shown out.old.items out.new.items (all_of
        (map (register_row (option_copied notes.entry)) (map row_of registers.now)))) }
{
    for register in registers {
        let note = note_on(notes, register.summary.name.as_str());
        push_registry(out, alloc, note, register.changed, register.summary)?;
    }
    Ok(())
}

fn push_registry(
    out: &mut Vec<u8>,
    alloc: Global,
    note: Option<&Note>,
    changed: &str,
    registry: &Summary,
) -> Result<(), AllocError>
    ensures { OnOk result
        (Shown out.old.items out.new.items (registry_row (option_copied note.entry) changed.now registry.now)) }
{
    push_name(out, title_in(note), registry.name.as_str(), changed)?;
    push(out, "<td><ul>")?;
    push_shares(out, alloc, registry.shares.as_slice())?;
    push_all(
        out,
        &[
            Markup("</ul></td><td>"),
            Number(registry.assigned),
            Markup("</td><td>"),
            Number(registry.temporary),
            Markup("</td><td>"),
            Number(registry.expired),
            Markup("</td><td>"),
            Number(registry.free),
            Markup("</td></tr>\n"),
        ],
    )?;
    Ok(())
}

// The row of a registry up to its policies: its title, its name, which leads to its page, and its last
// change.
fn push_name<'a>(
    out: &mut Vec<u8>,
    title: &'a str,
    name: &'a str,
    changed: &'a str,
) -> Result<(), AllocError>
    ensures { OnOk result
        (Appended out.old.items out.new.items (name_start title.now name.now changed.now)) }
{
    push_all(
        out,
        &[
            Markup("<tr id=\""),
            Text(name),
            Markup("\"><th scope=\"row\">"),
        ],
    )?;
    push_framed(out, "<div>", title, "</div>")?;
    push_all(
        out,
        &[
            Markup("<a href=\"registries/"),
            Text(name),
            Markup(".html\">"),
            Text(name),
            Markup("</a>"),
        ],
    )?;
    let before = "<div class=\"note\">Last changed <time>";
    push_framed(out, before, changed, "</time></div>")?;
    push(out, "</th>")?;
    Ok(())
}

fn push_shares(out: &mut Vec<u8>, alloc: Global, shares: &[RangeShare]) -> Result<(), AllocError>
    ensures { OnOk result
        (Shown out.old.items out.new.items (all_of (map share_item shares.now))) }
{
    for share in shares {
        push_share(out, alloc, share)?;
    }
    Ok(())
}

// A range with its policy.
fn push_share(out: &mut Vec<u8>, alloc: Global, share: &RangeShare) -> Result<(), AllocError>
    ensures { OnOk result (Shown out.old.items out.new.items (share_item share.now)) }
{
    let values = format!(in alloc; "{}", share.values)?;
    push_share_texts(out, values.as_str(), treatment_name(share.treatment))
}

fn push_share_texts<'a>(
    out: &mut Vec<u8>,
    values: &'a str,
    policy: &'a str,
) -> Result<(), AllocError>
    ensures { OnOk result
        (Shown out.old.items out.new.items (share_texts values.now policy.now)) }
{
    push_all(
        out,
        &[
            Markup("<li>"),
            Text(values),
            Markup(" "),
            Text(policy),
            Markup("</li>"),
        ],
    )
}

fn push_pool(out: &mut Vec<u8>, alloc: Global, prefixes: &[u32]) -> Result<(), AllocError>
    ensures { OnOk result
        (Shown out.old.items out.new.items (pool_list prefixes.now)) }
{
    match prefixes.first() {
        None => push(out, "<h2>Prefixes</h2><p>There are no prefixes yet.</p>"),
        Some(_) => push_items(out, alloc, prefixes),
    }
}

fn push_items(out: &mut Vec<u8>, alloc: Global, prefixes: &[u32]) -> Result<(), AllocError>
    ensures { OnOk result
        (Shown out.old.items out.new.items (prefixes_shown prefixes.now)) }
{
    push(out, "<h2>Prefixes</h2><ul>")?;
    push_prefixes(out, alloc, prefixes)?;
    push(out, "</ul>")?;
    Ok(())
}

fn push_prefixes(out: &mut Vec<u8>, alloc: Global, prefixes: &[u32]) -> Result<(), AllocError>
    ensures { OnOk result
        (Shown out.old.items out.new.items (all_of (map prefix_item prefixes.now))) }
{
    for prefix in prefixes {
        push_prefix(out, alloc, *prefix)?;
    }
    Ok(())
}

fn push_prefix(out: &mut Vec<u8>, alloc: Global, prefix: u32) -> Result<(), AllocError>
    ensures { OnOk result (Shown out.old.items out.new.items (prefix_item prefix)) }
{
    let digits = prefix::text(alloc, prefix)?;
    push_all(
        out,
        &[Markup("<li>"), Text(digits.as_str()), Markup("</li>")],
    )
}

// How many blocks were given of each size.
fn push_blocks(out: &mut Vec<u8>, blocks: &[Listed]) -> Result<(), AllocError>
    ensures { OnOk result
        (Shown out.old.items out.new.items (block_counts blocks.now)) }
{
    push_all(
        out,
        &[
            Markup("<h2>"),
            Link("blocks.html", "Blocks"),
            Markup("</h2><ul>"),
        ],
    )?;
    push_size(out, "oui.csv", Size::MaL, blocks)?;
    push_size(out, "mam.csv", Size::MaM, blocks)?;
    push_size(out, "oui36.csv", Size::MaS, blocks)?;
    push(out, "</ul>")?;
    Ok(())
}

// A file of IEEE's form, and how many blocks it has.
fn push_size(out: &mut Vec<u8>, file: &str, size: Size, blocks: &[Listed]) -> Result<(), AllocError>
    ensures { OnOk result
        (Shown out.old.items out.new.items (size_item file.now size blocks.now)) }
{
    let count = count_of(size, blocks) as u64;
    push_all(
        out,
        &[
            Markup("<li>"),
            Link(file, size.word()),
            Markup(": "),
            Number(count),
            Markup("</li>"),
        ],
    )
}
