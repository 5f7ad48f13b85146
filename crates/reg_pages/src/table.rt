//! Tables on a page.
ghost use Rattle.std.specs.Prelude.{◌++◌, OnOk};
ghost use Rattle.reg_pages.specs.Appended.{Appended, Shown};
ghost use Rattle.reg_pages.specs.Table.{below_rows, group};

use crate::markup::Piece::{Markup, Text};
use crate::markup::{push, push_all};
use std::alloc::AllocError;

/// Appends a row that heads those below it, up to the next such row: by its words, which it is found by
/// too, and by how many columns the table has. Only want of memory is an error.
pub fn push_group<'a>(out: &mut Vec<u8>, words: &'a str, columns: &'a str) -> Result<(), AllocError>
    ensures { OnOk result (Shown out.old.items out.new.items (group words.now columns.now)) }
{
    push_all(
        out,
        &[
            Markup("<tr id=\""),
            Text(words),
            Markup("\"><th scope=\"col\" colspan=\""),
            Text(columns),
            Markup("\"><a href=\"#"),
            Text(words),
            Markup("\">"),
            Text(words),
            Markup("</a></th></tr>\n"),
        ],
    )
}

/// Ends a table, and the page of which it is the last. Only want of memory is an error.
pub fn push_below(out: &mut Vec<u8>) -> Result<(), AllocError>
    ensures { OnOk result (Appended out.old.items out.new.items (λ rest. below_rows ++ rest)) }
{
    push(out, "</tbody></table></main></body></html>\n")
}
