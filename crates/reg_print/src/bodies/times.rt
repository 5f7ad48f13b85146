//! Prints when requests came, and when they were decided.
ghost use Rattle.reg_print.specs.Trees.Times.{times_tree};

use crate::bodies::act::put_number_if;
use crate::printing::{Itself, Print, Printer};
use reg_core::request::RequestTimes;

/// When a request came, and when it was decided, under which reference.
impl Print<Itself> for RequestTimes {
    ghost tree = { times_tree };

    ghost levels = { 1 };

    fn print(&self, out: &mut Printer) {
        out.open_object();
        put_number_if(out, "decided", self.decided);
        out.put("reference", &self.reference);
        put_number_if(out, "submitted", self.submitted);
        out.close_object();
    }
}
