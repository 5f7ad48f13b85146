//! What answers the lines of a script.
ghost use Rattle.std.specs.Prelude.{◌≡◌, List, ℕ, IfOk, IfErr};
ghost use Rattle.reg_wire.specs.Exchange.{Call};
ghost use Rattle.reg_wire.specs.Script.Line.{call_of};
ghost use Rattle.reg_wire.specs.Script.Lines.{ended};
ghost use Rattle.reg_wire.specs.Script.LineBuffer.{Unserved};

use crate::script::line::Line;
use std::alloc::Global;

/// Why a line has no answer.
#[derive(Clone, Copy, Debug, PartialEq, Eq)]
pub(crate) enum Unanswered {
    /// The store or memory failed, and nothing has changed.
    Storage,
    /// What the line asks was done, and there is no memory for the answer, which is no fault's.
    Memory,
}

/// What answers the lines of a script.
pub(crate) trait Responder {
    /// Where it looks up what a line asks.
    type Routes;

    /// What may be answered to a line, and what is there then.
    ghost Serves: { Self → Call → List ℕ → Self → Type 0 };

    /// The answer to a line, with its line feed.
    fn respond(
        &mut self,
        alloc: Global,
        routes: &Self::Routes,
        line: &Line<'_>,
    ) -> Result<Vec<u8>, Unanswered>
        ensures ok { IfOk result
            (λ text. (answer : List ℕ) × (text.items ≡ ended answer)
            × Serves self.old (call_of line.now) answer self.new) }
        ensures err { IfErr result
            (λ why. Unserved Serves self.old (call_of line.now) why self.new) };
}
