//! The frame of a page: what stands above and below all that it shows.
ghost use Rattle.std.specs.Prelude.{◌++◌, OnOk};
ghost use Rattle.reg_pages.specs.Appended.{Appended};
ghost use Rattle.reg_pages.specs.Document.{page_end, page_start};

use crate::markup::Piece::{Markup, Text};
use crate::markup::{push, push_all};
use std::alloc::AllocError;

/// Begins a page: its head, by the places of the style sheet and of the Atom feed, which programs for
/// feeds find there, and the title; and its heading, which is the title too. Only want of memory is an
/// error.
pub fn push_start<'a>(
    out: &mut Vec<u8>,
    style: &'a str,
    feed: &'a str,
    title: &'a str,
) -> Result<(), AllocError>
    ensures { OnOk result
        (Appended out.old.items out.new.items (page_start style.now feed.now title.now)) }
{
    push_all(
        out,
        &[
            Markup("<!DOCTYPE html>\n<html lang=\"en\"><head><meta charset=\"utf-8\">"),
            Markup(
                "<meta name=\"viewport\" content=\"width=device-width, initial-scale=1\"><title>",
            ),
            Text(title),
            Markup("</title><link rel=\"stylesheet\" href=\""),
            Text(style),
            Markup("\"><link rel=\"alternate\" type=\"application/atom+xml\" href=\""),
            Text(feed),
            Markup("\"></head><body><main><h1>"),
            Text(title),
            Markup("</h1>"),
        ],
    )
}

/// Ends a page. Only want of memory is an error.
pub fn push_end(out: &mut Vec<u8>) -> Result<(), AllocError>
    ensures { OnOk result (Appended out.old.items out.new.items (λ rest. page_end ++ rest)) }
{
    push(out, "</main></body></html>\n")
}
