//! Pieces of a page, appended to it.
ghost use Rattle.std.specs.Prelude.{◌++◌, OnOk};
ghost use Rattle.std.specs.Fmt.{decimal};
ghost use Rattle.reg_pages.specs.Appended.{Appended, Shown};
ghost use Rattle.reg_pages.specs.Document.{link};
ghost use Rattle.reg_pages.specs.Escape.{escaped};
ghost use Rattle.reg_pages.specs.Pieces.{framed_then, piece_then, pieces_then};

use crate::escape::push_text;
use std::alloc::AllocError;

/// A piece of a page.
#[derive(Clone, Copy)]
pub enum Piece<'a> {
    /// Markup, which stands as it is.
    Markup(&'a str),
    /// A text, of which no byte becomes markup.
    Text(&'a str),
    /// A number in decimal digits.
    Number(u64),
    /// A link to a place, by these words.
    Link(&'a str, &'a str),
}

/// Appends pieces in turn. Only want of memory is an error.
pub fn push_all(out: &mut Vec<u8>, pieces: &[Piece<'_>]) -> Result<(), AllocError>
    ensures { OnOk result (Appended out.old.items out.new.items (pieces_then pieces.now)) }
{
    for piece in pieces {
        push_piece(out, *piece)?;
    }
    Ok(())
}

fn push_piece(out: &mut Vec<u8>, piece: Piece<'_>) -> Result<(), AllocError>
    ensures { OnOk result (Appended out.old.items out.new.items (piece_then piece.entry)) }
{
    match piece {
        Piece::Markup(markup) => push(out, markup),
        Piece::Text(text) => push_text(out, text),
        Piece::Number(n) => push_number(out, n),
        Piece::Link(target, title) => push_link(out, target, title),
    }
}

/// Appends a text with markup before it and behind it; nothing where the text is empty. Only want of
/// memory is an error.
pub fn push_framed<'a>(
    out: &mut Vec<u8>,
    before: &'a str,
    text: &'a str,
    behind: &'a str,
) -> Result<(), AllocError>
    ensures { OnOk result
        (Appended out.old.items out.new.items (framed_then before.now text.now behind.now)) }
{
    if text.is_empty() {
        return Ok(());
    }
    push_all(
        out,
        &[
            Piece::Markup(before),
            Piece::Text(text),
            Piece::Markup(behind),
        ],
    )
}

/// Appends markup, as it is. Only want of memory is an error.
#[tactic(auto, using(crate::proofs::Pieces::bytes))]
pub fn push(out: &mut Vec<u8>, markup: &str) -> Result<(), AllocError>
    ensures { OnOk result (Appended out.old.items out.new.items (λ rest. markup.now ++ rest)) }
{
    out.extend_from_slice(markup.as_bytes())?;
    Ok(())
}

fn push_number(out: &mut Vec<u8>, n: u64) -> Result<(), AllocError>
    ensures { OnOk result (Appended out.old.items out.new.items (λ rest. escaped (decimal n) ++ rest)) }
{
    let digits = format!(in *out.allocator(); "{n}")?;
    push_text(out, digits.as_str())?;
    Ok(())
}

#[tactic(auto, using(crate::proofs::Pieces::joined))]
fn push_link(out: &mut Vec<u8>, target: &str, title: &str) -> Result<(), AllocError>
    ensures { OnOk result
        (Shown out.old.items out.new.items (link target.now title.now)) }
{
    push(out, "<a href=\"")?;
    push_text(out, target)?;
    push(out, "\">")?;
    push_text(out, title)?;
    push(out, "</a>")?;
    Ok(())
}
