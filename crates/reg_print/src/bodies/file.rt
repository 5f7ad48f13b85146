//! Prints requests with all that the desk has of them.
ghost use Rattle.reg_print.specs.Printed.{IfWhole, PrintedMembers};
ghost use Rattle.reg_print.specs.Trees.File.{file_members, file_tree, waiting_tree};

use crate::bodies::act::put_number_if;
use crate::bodies::request::put_standing;
use crate::printing::{Itself, Print, Printer};
use reg_core::case_file::{CaseFile, WaitingFile};

/// A request as the desk sees it, also with its experts, and their advice.
impl Print<Itself> for CaseFile {
    ghost tree = { file_tree };

    ghost levels = { 3 };

    fn print(&self, out: &mut Printer) {
        out.open_object();
        put_file(out, self);
        out.close_object();
    }
}

/// A request that waits: also with the moment at which it came.
impl Print<Itself> for WaitingFile {
    ghost tree = { waiting_tree };

    ghost levels = { 3 };

    fn print(&self, out: &mut Printer) {
        out.open_object();
        put_file(out, &self.file);
        put_number_if(out, "submitted", self.submitted);
        out.close_object();
    }
}

// The members of a request with its experts and their advice.
fn put_file(out: &mut Printer, file: &CaseFile)
    ensures { IfWhole out.old out.new (PrintedMembers out.old.json out.new.json 2 (file_members file.now)) }
{
    out.put("account", &file.request.account);
    out.put("advice", &file.advice);
    out.put("ask", &file.request.ask);
    out.put("experts", &file.experts);
    put_standing(out, &file.request);
}
