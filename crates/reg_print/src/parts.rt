//! The JSON of a registry in parts: what stands before its entries, each entry, and what stands behind them.
ghost use Rattle.std.specs.Prelude.{◌≡◌, ◌++◌, IfOk, OnOk};
ghost use Rattle.serde_json.specs.Written.{comma_if};
ghost use Rattle.reg_print.specs.Parts.{end_text, entry_text, front_text};

use crate::bodies::page::Frame;
use crate::printing::{Itself, printed};
use reg_core::entry::PageEntry;
use reg_core::page::Page;
use std::alloc::{AllocError, Global};

/// What stands before the entries.
pub fn front() -> &'static [u8]
    ensures { result.now ≡ front_text }
{
    b"{\"entries\":["
}

/// Appends an entry, and before it a comma where others stand there. Only want of memory is an error.
pub fn push_entry(out: &mut Vec<u8>, later: bool, entry: &PageEntry) -> Result<(), AllocError>
    ensures { OnOk result
        (out.new.items ≡ out.old.items ++ entry_text later entry.now) }
{
    let printed = printed::<Itself, _>(*out.allocator(), entry)?;
    out.extend_from_slice(comma_if(later))?;
    out.extend_from_slice(printed.as_slice())
}

fn comma_if(later: bool) -> &'static [u8]
    ensures { result.now ≡ comma_if later }
{
    if later { b"," } else { b"" }
}

/// What stands behind the entries: a bracket, and what a registry has besides. Only want of memory is
/// an error.
pub fn end_text(alloc: Global, page: &Page) -> Result<Vec<u8>, AllocError>
    ensures { IfOk result (λ text. text.items ≡ end_text page.now) }
{
    let frame = printed::<Frame, _>(alloc, page)?;
    let mut text = Vec::with_capacity(alloc, frame.len())?;
    text.extend_from_slice(b"],")?;
    text.extend_from_slice(&frame.as_slice()[1..])?;
    Ok(text)
}
