//! The index of a site for programs (JSON, RFC 8259).
ghost use Rattle.std.specs.Prelude.{◌≡◌, ◌++◌, map, string_bytes, IfOk, OnOk};
ghost use Rattle.reg_pages.specs.Appended.{Appended};
ghost use Rattle.reg_site.specs.IndexTree.{counts_text, files_text, front_rest, index_tree, json_byte, json_text, more_then, next_then, register, register_text, registers_then, row_of};

use crate::summary::Summary;
use reg_pages::markup::push;
use std::alloc::{AllocError, Global};

/// A register beside others: its counts, and the moment of its last change, which is empty where it is
/// not known.
#[derive(Clone, Copy)]
pub struct Register<'a> {
    pub summary: &'a Summary,
    pub changed: &'a str,
}

/// The index for programs: the title, the moment, how many changes there are and the digest of the last
/// one, and for each register its files, its counts and the moment of its last change. Only want of
/// memory is an error.
pub fn index_tree(
    alloc: Global,
    title: &str,
    moment: &str,
    changes: u64,
    digest: &str,
    rows: &[Register<'_>],
) -> Result<Vec<u8>, AllocError>
    ensures { IfOk result
        (λ v. v.items ≡ index_tree title.now moment.now changes digest.now (map row_of rows.now)) }
{
    let between = front_rest(alloc, moment, changes, digest)?;
    let mut out = Vec::new(alloc);
    push(&mut out, "{\"title\":\"")?;
    push_json(&mut out, title)?;
    push(&mut out, between.as_str())?;
    push_registers(&mut out, rows)?;
    push(&mut out, "]}\n")?;
    Ok(out)
}

// Appends what stands for a text that has no control characters.
fn push_json(out: &mut Vec<u8>, text: &str) -> Result<(), AllocError>
    ensures { OnOk result (Appended out.old.items out.new.items (λ rest. json_text text.now ++ rest)) }
{
    for b in text.as_bytes() {
        push_byte(out, *b)?;
    }
    Ok(())
}

fn push_byte(out: &mut Vec<u8>, b: u8) -> Result<(), AllocError>
    ensures { OnOk result (out.new.items ≡ out.old.items ++ json_byte b) }
{
    match b {
        b'"' => out.extend_from_slice(b"\\\""),
        b'\\' => out.extend_from_slice(b"\\\\"),
        _ => Ok(out.push(b)?),
    }
}

// What stands behind the title, before the registers.
fn front_rest(alloc: Global, moment: &str, changes: u64, digest: &str) -> Result<String, AllocError>
    ensures { IfOk result (λ text. string_bytes text ≡ front_rest moment.now changes digest.now) }
{
    format!(in alloc;
        "\",\"moment\":\"{moment}\",\"changes\":{changes},\"digest\":\"{digest}\",\"registers\":[\n"
    )
}

fn push_registers(out: &mut Vec<u8>, rows: &[Register<'_>]) -> Result<(), AllocError>
    ensures { OnOk result (Appended out.old.items out.new.items (registers_then (map row_of rows.now))) }
{
    match rows.split_first() {
        Some((first, more)) => push_all(out, first, more),
        None => Ok(()),
    }
}

#[tactic(auto, using(reg_pages::proofs::Pieces::joined))]
fn push_all<'a>(
    out: &mut Vec<u8>,
    first: &Register<'a>,
    more: &[Register<'a>],
) -> Result<(), AllocError>
    ensures { OnOk result (Appended out.old.items out.new.items
        (λ rest. register (row_of first.now) ++ more_then (map row_of more.now) rest)) }
{
    push_register(out, first)?;
    push_more(out, more)?;
    Ok(())
}

fn push_more(out: &mut Vec<u8>, rows: &[Register<'_>]) -> Result<(), AllocError>
    ensures { OnOk result (Appended out.old.items out.new.items (more_then (map row_of rows.now))) }
{
    for row in rows {
        push_next(out, row)?;
    }
    Ok(())
}

#[tactic(auto, using(reg_pages::proofs::Pieces::joined))]
fn push_next(out: &mut Vec<u8>, row: &Register<'_>) -> Result<(), AllocError>
    ensures { OnOk result (Appended out.old.items out.new.items (next_then (row_of row.now))) }
{
    push(out, ",\n")?;
    push_register(out, row)?;
    Ok(())
}

fn push_register(out: &mut Vec<u8>, row: &Register<'_>) -> Result<(), AllocError>
    ensures { OnOk result (Appended out.old.items out.new.items (λ rest. register (row_of row.now) ++ rest)) }
{
    let text = text_of(*out.allocator(), row.summary, row.changed)?;
    push(out, text.as_str())
}

fn text_of(alloc: Global, summary: &Summary, changed: &str) -> Result<String, AllocError>
    ensures { IfOk result
        (λ text. string_bytes text
        ≡ register_text summary.now.name (files_text summary.now.name) (counts_text summary.now)
        changed.now) }
{
    let name = summary.name.as_str();
    let files = files_text(alloc, name)?;
    let counts = counts_text(alloc, summary)?;
    let text = register_text(alloc, name, files.as_str(), counts.as_str(), changed)?;
    Ok(text)
}

fn register_text(
    alloc: Global,
    name: &str,
    files: &str,
    counts: &str,
    changed: &str,
) -> Result<String, AllocError>
    ensures { IfOk result
        (λ text. string_bytes text ≡ register_text name.now files.now counts.now changed.now) }
{
    format!(in alloc;
        "{{\"name\":\"{name}\",\"files\":[{files}],{counts},\"changed\":\"{changed}\"}}"
    )
}

fn files_text(alloc: Global, name: &str) -> Result<String, AllocError>
    ensures { IfOk result (λ text. string_bytes text ≡ files_text name.now) }
{
    format!(in alloc;
        "\"registries/{name}.html\",\"registries/{name}.csv\",\"registries/{name}.json\",\"registries/{name}.xml\""
    )
}

fn counts_text(alloc: Global, s: &Summary) -> Result<String, AllocError>
    ensures { IfOk result (λ text. string_bytes text ≡ counts_text s.now) }
{
    format!(in alloc;
        "\"assigned\":{},\"temporary\":{},\"expired\":{},\"free\":{},\"set_aside\":{},\"reserved\":{}",
        s.assigned, s.temporary, s.expired, s.free, s.set_aside, s.reserved
    )
}
