//! A picture of a registry's values, and its legend in words.
ghost use Rattle.std.specs.Prelude.{◌≡◌, ◌≤◌, codes, map, string_bytes, IfOk, OnOk};
ghost use Rattle.reg_pages.specs.Appended.{Appended, Shown};
ghost use Rattle.reg_pages.specs.Markup.{all_of, opening_then};
ghost use Rattle.reg_site.specs.Bar.{bar, cell_count, cell_of, counted, end_of, entry_part, entry_parts, joined, joins, item, kind_class, kind_height, kind_of_rest, kind_of_status, kind_top, legend, merged, part, picture, picture_attributes, rect, same_kind, share_part, view};

use crate::summary::{RangeShare, Rest, Summary, rest_of};
use reg_core::entry::PageEntry;
use reg_early::term::Status;
use reg_pages::markup::Piece::{Markup, Number, Text};
use reg_pages::markup::{push, push_all};
use std::alloc::{AllocError, Global};

/// How many cells a picture has at most.
const MOST_CELLS: u64 = 400;

/// What a part of the picture stands for.
#[derive(Clone, Copy)]
pub(crate) enum PartKind {
    /// Entries for good.
    Assigned,
    /// Early allocations that stand.
    Temporary,
    /// Early allocations that do not stand any more.
    Expired,
    /// Values that can be assigned.
    Free,
    /// Values that are assigned by others, or need no assignment.
    SetAside,
    /// Values that are not available.
    Reserved,
}

/// A part of the picture: the cells from `start` on and below `end`.
#[derive(Clone, Copy)]
pub(crate) struct PicturePart {
    kind: PartKind,
    start: u64,
    end: u64,
}

/// Appends a bar of a registry's values: each range as long as it has values, and upon it the entries
/// where they are; and how many there are of each kind, in words.
pub(crate) fn push_bar(
    out: &mut Vec<u8>,
    summary: &Summary,
    entries: &[PageEntry],
) -> Result<(), AllocError>
    ensures { OnOk result (Shown out.old.items out.new.items (bar summary.now entries.now)) }
{
    push(out, "<figure>")?;
    push_picture(out, summary, entries)?;
    push(out, "<figcaption>")?;
    push_legend(out, summary)?;
    push(out, "</figcaption></figure>")?;
    Ok(())
}

fn push_picture(
    out: &mut Vec<u8>,
    summary: &Summary,
    entries: &[PageEntry],
) -> Result<(), AllocError>
    ensures { OnOk result (Shown out.old.items out.new.items (picture summary.now entries.now)) }
{
    let view = view(*out.allocator(), cell_count(summary.max))?;
    push_picture_start(out, view.as_str())?;
    push_shares(out, summary.max, summary.shares.as_slice())?;
    push_entries(out, summary.max, entries)?;
    push(out, "</svg>")?;
    Ok(())
}

// What the picture shows of its cells.
fn view(alloc: Global, cells: u64) -> Result<String, AllocError>
    ensures { IfOk result (λ shown. string_bytes shown ≡ view cells) }
{
    format!(in alloc; "0 0 {cells} 24")
}

fn push_picture_start(out: &mut Vec<u8>, view: &str) -> Result<(), AllocError>
    ensures { OnOk result (Appended out.old.items out.new.items
        (opening_then (codes "svg") (picture_attributes view.now))) }
{
    push_all(
        out,
        &[
            Markup("<svg viewBox=\""),
            Text(view),
            Markup("\" preserveAspectRatio=\"none\" role=\"img\""),
            Markup(" aria-label=\"The values in proportion, as told below\">"),
        ],
    )
}

fn push_shares(out: &mut Vec<u8>, most: u32, shares: &[RangeShare]) -> Result<(), AllocError>
    ensures { OnOk result
        (Shown out.old.items out.new.items (all_of (map (λ share. part (share_part most share)) shares.now))) }
{
    for share in shares {
        push_part(out, share_part(most, share))?;
    }
    Ok(())
}

// The entries where they are: a part is appended once the next one is not its neighbour.
fn push_entries(out: &mut Vec<u8>, most: u32, entries: &[PageEntry]) -> Result<(), AllocError>
    ensures { OnOk result
        (Shown out.old.items out.new.items (all_of (map part (entry_parts most entries.now)))) }
{
    match entries.split_first() {
        Some((first, others)) => push_after(out, most, entry_part(most, first), others),
        None => Ok(()),
    }
}

fn push_after(
    out: &mut Vec<u8>,
    most: u32,
    first: PicturePart,
    others: &[PageEntry],
) -> Result<(), AllocError>
    ensures { OnOk result
        (Shown out.old.items out.new.items
        (all_of (map part (merged first (map (entry_part most) others.now))))) }
{
    let mut last = first;
    for entry in others {
        let next = entry_part(most, entry);
        if joins(&last, &next) {
            last = joined(&last, &next);
        } else {
            push_part(out, last)?;
            last = next;
        }
    }
    push_part(out, last)?;
    Ok(())
}

// ---- Parts

fn share_part(most: u32, share: &RangeShare) -> PicturePart
    ensures { result ≡ share_part most share.now }
{
    PicturePart {
        kind: kind_of_rest(rest_of(share.treatment)),
        start: cell_of(most, share.values.lo),
        end: end_of(most, u64::from(share.values.hi) + 1),
    }
}

fn entry_part(most: u32, entry: &PageEntry) -> PicturePart
    ensures { result ≡ entry_part most entry.now }
{
    let start = cell_of(most, entry.value);
    PicturePart {
        kind: kind_of_status(entry.status),
        start,
        end: start + 1,
    }
}

// Whether a part is not shown apart from the one before it.
fn joins(last: &PicturePart, next: &PicturePart) -> bool
    ensures { result ≡ joins last.now next.now }
{
    next.start < last.end || (same_kind(last.kind, next.kind) && next.start == last.end)
}

fn joined(last: &PicturePart, next: &PicturePart) -> PicturePart
    ensures { result ≡ joined last.now next.now }
{
    PicturePart {
        kind: last.kind,
        start: last.start,
        end: last.end.max(next.end),
    }
}

// A part of the picture: its kind, where it begins and how long it is.
fn push_part(out: &mut Vec<u8>, p: PicturePart) -> Result<(), AllocError>
    ensures { OnOk result (Shown out.old.items out.new.items (part p)) }
{
    push_rect(
        out,
        kind_class(p.kind),
        p.start,
        kind_top(p.kind),
        p.end.saturating_sub(p.start),
        kind_height(p.kind),
    )
}

fn push_rect<'a>(
    out: &mut Vec<u8>,
    class: &'a str,
    start: u64,
    top: &'a str,
    long: u64,
    height: &'a str,
) -> Result<(), AllocError>
    ensures { OnOk result
        (Shown out.old.items out.new.items (rect class.now start top.now long height.now)) }
{
    push_all(
        out,
        &[
            Markup("<rect class=\""),
            Text(class),
            Markup("\" x=\""),
            Number(start),
            Markup("\" y=\""),
            Text(top),
            Markup("\" width=\""),
            Number(long),
            Markup("\" height=\""),
            Text(height),
            Markup("\"></rect>"),
        ],
    )
}

// ---- Cells

// How many cells the picture has: one for each value, and 400 at most.
fn cell_count(most: u32) -> u64
    ensures value { result ≡ cell_count most }
    ensures few { result ≤ 400 }
{
    MOST_CELLS.min(u64::from(most) + 1)
}

// The cell in which a number of values ends.
fn end_of(most: u32, n: u64) -> u64
    ensures value { result ≡ end_of most n }
    ensures few { result ≤ 400 }
{
    let all = u64::from(most) + 1;
    n.min(all) * cell_count(most) / all
}

// The cell of a value.
fn cell_of(most: u32, value: u32) -> u64
    ensures value { result ≡ cell_of most value }
    ensures few { result ≤ 400 }
{
    end_of(most, u64::from(value.min(most)))
}

// ---- Kinds

fn same_kind(a: PartKind, b: PartKind) -> bool
    ensures { result ≡ same_kind a b }
{
    matches!(
        (a, b),
        (PartKind::Assigned, PartKind::Assigned)
            | (PartKind::Temporary, PartKind::Temporary)
            | (PartKind::Expired, PartKind::Expired)
            | (PartKind::Free, PartKind::Free)
            | (PartKind::SetAside, PartKind::SetAside)
            | (PartKind::Reserved, PartKind::Reserved)
    )
}

fn kind_of_status(status: Status) -> PartKind
    ensures { result ≡ kind_of_status status }
{
    match status {
        Status::Assigned => PartKind::Assigned,
        Status::Temporary => PartKind::Temporary,
        Status::Expired => PartKind::Expired,
    }
}

fn kind_of_rest(rest: Rest) -> PartKind
    ensures { result ≡ kind_of_rest rest }
{
    match rest {
        Rest::Free => PartKind::Free,
        Rest::SetAside => PartKind::SetAside,
        Rest::Reserved => PartKind::Reserved,
    }
}

// The class by which the style sheet knows a kind.
fn kind_class(kind: PartKind) -> &'static str
    ensures { result.now ≡ kind_class kind }
{
    match kind {
        PartKind::Assigned => "assigned",
        PartKind::Temporary => "temporary",
        PartKind::Expired => "expired",
        PartKind::Free => "free",
        PartKind::SetAside => "aside",
        PartKind::Reserved => "reserved",
    }
}

// Where a part of a kind begins, from above.
fn kind_top(kind: PartKind) -> &'static str
    ensures { result.now ≡ kind_top kind }
{
    match kind {
        PartKind::Assigned | PartKind::Temporary => "0",
        PartKind::Expired => "18",
        PartKind::Free => "2",
        PartKind::SetAside => "8",
        PartKind::Reserved => "11",
    }
}

// How high a part of a kind is.
fn kind_height(kind: PartKind) -> &'static str
    ensures { result.now ≡ kind_height kind }
{
    match kind {
        PartKind::Assigned => "24",
        PartKind::Temporary => "12",
        PartKind::Expired => "6",
        PartKind::Free => "20",
        PartKind::SetAside => "8",
        PartKind::Reserved => "2",
    }
}

// ---- The legend

fn push_legend(out: &mut Vec<u8>, summary: &Summary) -> Result<(), AllocError>
    ensures { OnOk result (Shown out.old.items out.new.items (legend summary.now)) }
{
    push(out, "<ul>")?;
    push_counted(out, PartKind::Assigned, "Assigned", summary.assigned)?;
    push_counted(out, PartKind::Temporary, "Temporary", summary.temporary)?;
    push_counted(out, PartKind::Expired, "Expired", summary.expired)?;
    push_counted(out, PartKind::Free, "Free", summary.free)?;
    push_counted(
        out,
        PartKind::SetAside,
        "Set aside by policy",
        summary.set_aside,
    )?;
    push_counted(out, PartKind::Reserved, "Reserved", summary.reserved)?;
    push(out, "</ul>")?;
    Ok(())
}

// A word with a number, and how its kind is drawn.
fn push_counted(out: &mut Vec<u8>, kind: PartKind, word: &str, n: u64) -> Result<(), AllocError>
    ensures { OnOk result (Shown out.old.items out.new.items (counted kind word.now n)) }
{
    push_item(out, kind_class(kind), word, n)
}

fn push_item<'a>(out: &mut Vec<u8>, class: &'a str, word: &'a str, n: u64) -> Result<(), AllocError>
    ensures { OnOk result (Shown out.old.items out.new.items (item class.now word.now n)) }
{
    push_all(
        out,
        &[
            Markup("<li class=\""),
            Text(class),
            Markup("\">"),
            Text(word),
            Markup(": "),
            Number(n),
            Markup("</li>"),
        ],
    )
}
