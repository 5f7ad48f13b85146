//! Prints how many rows of each kind there are.
ghost use Rattle.reg_print.specs.Trees.Counts.{counts_tree};

use crate::printing::{Itself, Print, Printer};
use reg_core::counts::Counts;

impl Print<Itself> for Counts {
    ghost tree = { counts_tree };

    ghost levels = { 1 };

    fn print(&self, out: &mut Printer) {
        out.open_object();
        out.put_count("agents", self.agents);
        out.put_count("blocks", self.blocks);
        out.put_count("capabilities", self.caps.all);
        out.put_count("entries", self.entries.all);
        out.put_count("expired", self.entries.expired);
        out.put_count("held", self.entries.held);
        out.put_count("prefixes", self.prefixes);
        out.put_count("registries", self.registries);
        out.put_count("temporary", self.entries.temporary);
        out.put_count("valid", self.caps.valid);
        out.close_object();
    }
}
