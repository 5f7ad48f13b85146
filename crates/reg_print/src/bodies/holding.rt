//! Prints the blocks that an applicant holds.
ghost use Rattle.std.specs.Prelude.{[], ◌∷◌, codes};
ghost use Rattle.reg_blocks.specs.Digits.{block_text};
ghost use Rattle.reg_print.specs.Printed.{IfWhole, PrintedMembers};
ghost use Rattle.reg_print.specs.Trees.Holding.{holding_tree};
ghost use Rattle.reg_print.specs.Trees.Members.{text};

use crate::printing::{Itself, Print, Printer};
use reg_blocks::block::Block;
use reg_core::holding::Holding;

/// A block as its holder sees it, listed or not.
impl Print<Itself> for Holding {
    ghost tree = { holding_tree };

    ghost levels = { 1 };

    fn print(&self, out: &mut Printer) {
        out.open_object();
        out.put("address", &self.address);
        put_block(out, &self.block);
        out.put("organization", &self.organization);
        out.put_flag("private", self.private);
        out.put_text("size", self.block.size().word());
        out.close_object();
    }
}

fn put_block(out: &mut Printer, block: &Block)
    ensures { IfWhole out.old out.new
        (PrintedMembers out.old.json out.new.json 0
        ((codes "block", text (block_text block.now)) ∷ [])) }
{
    out.put_made("block", block.text(out.alloc));
}
