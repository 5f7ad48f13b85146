//! Prints whether an account is an agent.
ghost use Rattle.reg_print.specs.Trees.Agent.{agent_tree};

use crate::printing::{Itself, Print, Printer};
use reg_core::text::Account;

/// Whether an account reads the requests of the caller, whose agent it then is.
#[derive(Clone, Copy)]
pub(crate) struct Agent {
    pub agent: Account,
    pub reads: bool,
}

impl Print<Itself> for Agent {
    ghost tree = { λ a. agent_tree a.agent a.reads };

    ghost levels = { 1 };

    fn print(&self, out: &mut Printer) {
        out.open_object();
        out.put("agent", &self.agent);
        out.put_flag("reads", self.reads);
        out.close_object();
    }
}
