//! Prints refusals.
ghost use Rattle.std.specs.Prelude.{[], ◌∷◌, codes, option_map};
ghost use Rattle.serde_json.specs.Data.{string};
ghost use Rattle.reg_print.specs.Detail.{detail_text};
ghost use Rattle.reg_print.specs.Printed.{IfWhole, PrintedMembers};
ghost use Rattle.reg_print.specs.Refusal.{row_view};
ghost use Rattle.reg_print.specs.Trees.Refusal.{error_tree};

use crate::detail::Detail;
use crate::printing::{Itself, Print, Printer};
use crate::refusal::RefusalRow;

/// A refusal by its name, and what it is about.
impl Print<Itself> for RefusalRow {
    ghost tree = { λ row. error_tree (row_view row) };

    ghost levels = { 1 };

    fn print(&self, out: &mut Printer) {
        out.open_object();
        out.put_text("error", self.name);
        put_detail_if(out, self.item);
        out.close_object();
    }
}

fn put_detail_if(out: &mut Printer, detail: Option<Detail>)
    ensures { IfWhole out.old out.new
        (PrintedMembers out.old.json out.new.json 0
        ((codes "item", option_map (λ d. string (detail_text d)) detail) ∷ [])) }
{
    match detail {
        Some(detail) => out.put_made("item", format!(in out.alloc; "{detail}")),
        None => {},
    }
}
