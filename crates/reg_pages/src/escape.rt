//! Texts on a page: what stands for them there is no markup.
ghost use Rattle.std.specs.Prelude.{◌≡◌, ◌++◌, OnOk, option_map};
ghost use Rattle.reg_pages.specs.Appended.{Appended};
ghost use Rattle.reg_pages.specs.Escape.{escaped, escaped_byte, reference};

use std::alloc::AllocError;

/// Appends what stands for a text on a page (HTML Living Standard, 13.1.4). Only want of memory is an
/// error.
pub fn push_text(out: &mut Vec<u8>, text: &str) -> Result<(), AllocError>
    ensures { OnOk result (Appended out.old.items out.new.items (λ rest. escaped text.now ++ rest)) }
{
    for b in text.as_bytes() {
        push_byte(out, *b)?;
    }
    Ok(())
}

// Appends what stands for a byte of a text.
fn push_byte(out: &mut Vec<u8>, b: u8) -> Result<(), AllocError>
    ensures { OnOk result (out.new.items ≡ out.old.items ++ escaped_byte b) }
{
    match reference(b) {
        Some(reference) => out.extend_from_slice(reference.as_bytes()),
        None => Ok(out.push(b)?),
    }
}

// The character reference that stands for a byte, where it may not stand for itself.
fn reference(b: u8) -> Option<&'static str>
    ensures { option_map (λ text. text.now) result ≡ reference b }
{
    match b {
        b'&' => Some("&amp;"),
        b'<' => Some("&lt;"),
        b'>' => Some("&gt;"),
        b'"' => Some("&quot;"),
        b'\'' => Some("&#39;"),
        _ => None,
    }
}
