//! Prints requests as their experts see them.
ghost use Rattle.reg_print.specs.Trees.Queue.{queue_tree};

use crate::printing::{Itself, Print, Printer};
use reg_core::queue::QueueRow;

/// A request as an expert sees it: whose it is, what it asks for, under which reference, the bare
/// word of where it stands, and the expert's own advice, where it was given.
impl Print<Itself> for QueueRow {
    ghost tree = { queue_tree };

    ghost levels = { 3 };

    fn print(&self, out: &mut Printer) {
        out.open_object();
        out.put("account", &self.account);
        out.put_if("advice", &self.advice);
        out.put("ask", &self.ask);
        out.put("reference", &self.reference);
        out.put_text("state", self.word.word());
        out.close_object();
    }
}
