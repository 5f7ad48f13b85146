//! Prints advice.
ghost use Rattle.reg_print.specs.Printed.{IfWhole, PrintedMembers};
ghost use Rattle.reg_print.specs.Trees.Advice.{advice_members, advice_tree, opinion_tree};

use crate::printing::{Itself, Print, Printer};
use reg_core::advice::{Advice, Opinion};

/// An advice: its verdict and its text.
impl Print<Itself> for Advice {
    ghost tree = { advice_tree };

    ghost levels = { 1 };

    fn print(&self, out: &mut Printer) {
        out.open_object();
        put_advice(out, self);
        out.close_object();
    }
}

/// An advice with its expert.
impl Print<Itself> for Opinion {
    ghost tree = { opinion_tree };

    ghost levels = { 1 };

    fn print(&self, out: &mut Printer) {
        out.open_object();
        out.put("expert", &self.expert);
        put_advice(out, &self.advice);
        out.close_object();
    }
}

// The members of an advice.
fn put_advice(out: &mut Printer, advice: &Advice)
    ensures { IfWhole out.old out.new
        (PrintedMembers out.old.json out.new.json 0 (advice_members advice.now)) }
{
    out.put("text", &advice.text);
    out.put_text("verdict", advice.verdict.word());
}
