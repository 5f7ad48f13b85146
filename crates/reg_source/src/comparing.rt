//! Bytes that are compared with those that a printer gives.
ghost use Rattle.std.specs.Prelude.{◌≡◌, ◌↔◌, [], IfOk, IsTrue};
ghost use Rattle.reg_pages.specs.Portions.{GivesIfMore};

use reg_pages::portions::Portions;
use reg_print::comparing::behind;
use std::alloc::{AllocError, Global};

/// Whether a printer gives just these bytes, which are compared a portion at a time. Only want of memory
/// is an error.
pub fn gives_just<P: Portions>(
    alloc: Global,
    printer: &mut P,
    bytes: &[u8],
) -> Result<bool, AllocError>
    ensures { IfOk result (λ same. IsTrue same ↔ (bytes.now ≡ P.rest printer.old)) }
{
    let mut portion = Vec::new(alloc);
    let mut rest = bytes;
    while next_portion(printer, &mut portion)? {
        let Some(more) = behind(portion.as_slice(), rest) else {
            return Ok(false);
        };
        rest = more;
    }
    Ok(rest.is_empty())
}

// The portion that comes next; whether there is one.
fn next_portion<P: Portions>(printer: &mut P, portion: &mut Vec<u8>) -> Result<bool, AllocError>
    ensures { IfOk result
        (λ more. GivesIfMore more [] portion.new.items (P.rest printer.old) (P.rest printer.new)) }
{
    portion.clear();
    printer.push_next(portion)
}
