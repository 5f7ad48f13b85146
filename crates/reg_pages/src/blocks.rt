//! The page of the blocks that were given, and IEEE's files of them.
ghost use Rattle.std.specs.Prelude.{◌≡◌, length, IfOk, OnOk};
ghost use Rattle.std.specs.Option.{option_copied};
ghost use Rattle.reg_pages.specs.Appended.{Appended, Shown};
ghost use Rattle.reg_pages.specs.Noted.{apply_lines};
ghost use Rattle.reg_pages.specs.Blocks.{above_rows, assignments_text, block_row, blocks_page, is_prefix, no_blocks, page_left, prefix_of, prefix_row, row_behind, row_by, rows_of, same_size};

use crate::document::push_start;
use crate::markup::Piece::{Markup, Text};
use crate::markup::{push, push_all};
use crate::noted::push_apply;
use crate::notes::Notes;
use crate::portions::{Next, Portions};
use crate::table::{push_below, push_group};
use reg_blocks::block::Block;
use reg_blocks::prefix;
use reg_blocks::size::Size;
use reg_core::holding::Listed;
use reg_print::listing::blocks::{address_text, block_listing, organization_text};
use std::alloc::{AllocError, Global};

// Links to the first page, and to the blocks in other forms; and how the block of an address is found.
const INTRO: &str = "\
    <p><a href=\"index.html\">All registries</a> <a href=\"blocks.csv\">CSV</a> \
    <a href=\"oui.csv\">MA-L</a> <a href=\"mam.csv\">MA-M</a> <a href=\"oui36.csv\">MA-S</a></p>\
    <p>To find a MAC address, write its digits in capitals, without separators, as 001A2B018123. \
    The first 6 are its prefix. Put # and these 6 behind the address of this page, \
    as in blocks.html#001A2B, to see the blocks of this prefix. The MAC address is in \
    the block whose digits it begins with: 6 digits for MA-L, 7 for MA-M, 9 for MA-S.</p>";

// The table up to its rows.
const COLUMNS: &str = "\
    <table class=\"blocks\"><caption>Blocks of MAC addresses</caption><thead><tr>\
    <th scope=\"col\">Registry</th><th scope=\"col\">Assignment</th>\
    <th scope=\"col\">Organization Name</th><th scope=\"col\">Organization Address</th>\
    </tr></thead><tbody>";

/// The blocks of one size in the form in which the IEEE Registration Authority publishes MA-L, MA-M
/// and MA-S (`oui.csv`, `mam.csv`, `oui36.csv`), in their order. Only want of memory is an error.
pub fn assignments(alloc: Global, size: Size, rows: &[Listed]) -> Result<Vec<u8>, AllocError>
    ensures { IfOk result (λ v. v.items ≡ assignments_text size rows.now) }
{
    let of_size = rows_of(alloc, size, rows)?;
    block_listing(alloc, of_size.as_slice())
}

// The rows of one size.
fn rows_of(alloc: Global, size: Size, rows: &[Listed]) -> Result<Vec<Listed>, AllocError>
    ensures { IfOk result (λ v. v.items ≡ rows_of size rows.now) }
{
    let mut of_size = Vec::new(alloc);
    for row in rows {
        if same_size(row.block.size(), size) {
            of_size.push(row.copy()?)?;
        }
    }
    Ok(of_size)
}

/// How many rows are of one size.
pub fn count_of(size: Size, rows: &[Listed]) -> usize
    ensures { result ≡ length (rows_of size rows.now) }
{
    rows.iter()
        .filter(|row| same_size(row.block.size(), size))
        .count()
}

fn same_size(a: Size, b: Size) -> bool
    ensures { result ≡ same_size a b }
{
    matches!(
        (a, b),
        (Size::MaL, Size::MaL) | (Size::MaM, Size::MaM) | (Size::MaS, Size::MaS)
    )
}

/// The page of the blocks that were given, in portions: the rows of their listing, each found by `b`
/// and its digits, below the 24-bit prefix of its addresses, which is found by its own digits. A private
/// holder is shown as `Private`, without an address. The first portion has what stands above these rows,
/// each other one a row, with the prefix if it is another than before, and the last what stands below.
#[derive(Drop)]
pub struct BlocksPage<'a> {
    rows: &'a [Listed],
    notes: Option<&'a Notes>,
    // The prefix of the row that was given last.
    before: Option<u32>,
    next: Next,
}

impl<'a> BlocksPage<'a> {
    /// All of the page of these blocks is to be given, with where to apply, if these notes say so.
    pub fn of(rows: &'a [Listed], notes: Option<&'a Notes>) -> Self
        ensures { page_left result ≡ blocks_page (apply_lines (option_copied notes.entry)) rows.now }
    {
        BlocksPage {
            rows,
            notes,
            before: None,
            next: Next::Above,
        }
    }
}

impl Portions for BlocksPage<'_> {
    ghost rest = { page_left };

    fn push_next(&mut self, out: &mut Vec<u8>) -> Result<bool, AllocError> {
        let alloc = *out.allocator();
        let before = match self.next {
            Next::Above => {
                push_above(out, self.notes, self.rows)?;
                None
            }
            Next::Row(place) => match self.rows.get(place) {
                Some(row) => {
                    push_row(out, alloc, self.before, row)?;
                    Some(prefix_of(&row.block))
                }
                None => {
                    push_below(out)?;
                    None
                }
            },
            Next::Nothing => return Ok(false),
        };
        self.before = before;
        self.next = self.next.after(self.rows.len());
        Ok(true)
    }
}

// What stands above the rows of the listing.
fn push_above(out: &mut Vec<u8>, notes: Option<&Notes>, rows: &[Listed]) -> Result<(), AllocError>
    ensures { OnOk result (Appended out.old.items out.new.items
        (above_rows (apply_lines (option_copied notes.entry)) rows.now)) }
{
    push_start(out, "style.css", "changes.atom", "Blocks")?;
    push(out, INTRO)?;
    push_apply(out, notes)?;
    push_if_none(out, rows)?;
    push(out, COLUMNS)?;
    Ok(())
}

// That there are no blocks, where there are none.
fn push_if_none(out: &mut Vec<u8>, rows: &[Listed]) -> Result<(), AllocError>
    ensures { OnOk result (Shown out.old.items out.new.items (no_blocks rows.now)) }
{
    match rows.first() {
        None => push(out, "<p>No blocks have been assigned yet.</p>"),
        Some(_) => Ok(()),
    }
}

// A block behind one of this prefix.
fn push_row(
    out: &mut Vec<u8>,
    alloc: Global,
    before: Option<u32>,
    row: &Listed,
) -> Result<(), AllocError>
    ensures { OnOk result (Shown out.old.items out.new.items (row_behind before row.now)) }
{
    push_prefix(out, alloc, before, prefix_of(&row.block))?;
    push_block(out, alloc, row)?;
    Ok(())
}

// The first 24 bits of the addresses of a block.
fn prefix_of(block: &Block) -> u32
    ensures { result ≡ prefix_of block.now }
{
    (block.first() >> 24) as u32
}

// A prefix as a row, unless it is the one before.
fn push_prefix(
    out: &mut Vec<u8>,
    alloc: Global,
    before: Option<u32>,
    prefix: u32,
) -> Result<(), AllocError>
    ensures { OnOk result (Shown out.old.items out.new.items (prefix_row before prefix)) }
{
    if is_prefix(before, prefix) {
        return Ok(());
    }
    let digits = prefix::text(alloc, prefix)?;
    push_group(out, digits.as_str(), "4")
}

fn is_prefix(before: Option<u32>, prefix: u32) -> bool
    ensures { result ≡ is_prefix before prefix }
{
    match before {
        Some(before) => before == prefix,
        None => false,
    }
}

fn push_block(out: &mut Vec<u8>, alloc: Global, row: &Listed) -> Result<(), AllocError>
    ensures { OnOk result (Shown out.old.items out.new.items (block_row row.now)) }
{
    let digits = row.block.text(alloc)?;
    push_block_texts(
        out,
        row.block.size().word(),
        digits.as_str(),
        organization_text(row),
        address_text(row),
    )
}

fn push_block_texts<'a>(
    out: &mut Vec<u8>,
    size: &'a str,
    digits: &'a str,
    organization: &'a str,
    address: &'a str,
) -> Result<(), AllocError>
    ensures { OnOk result
        (Shown out.old.items out.new.items
        (row_by size.now digits.now organization.now address.now)) }
{
    push_all(
        out,
        &[
            Markup("<tr id=\"b"),
            Text(digits),
            Markup("\"><td>"),
            Text(size),
            Markup("</td><th scope=\"row\"><a href=\"#b"),
            Text(digits),
            Markup("\">"),
            Text(digits),
            Markup("</a></th><td>"),
            Text(organization),
            Markup("</td><td>"),
            Text(address),
            Markup("</td></tr>\n"),
        ],
    )
}
