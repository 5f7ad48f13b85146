//! The line that is being read, so far.
ghost use Rattle.std.specs.Prelude.{◌≡◌, length, ◌++◌, [], List, ℕ, IsTrue, ◌↔◌, OnOk, option_map};
ghost use Rattle.reg_wire.specs.Script.Line.{line_of, call_of};
ghost use Rattle.reg_wire.specs.Script.LineBuffer.{IsBuffered};

use crate::script::line::{Line, MOST_BYTES, read_line};
use std::alloc::{AllocError, Global};
use std::marker::Model;

/// The bytes of a line so far, up to the first that makes it too long.
#[derive(Drop)]
pub(crate) struct LineBuffer {
    bytes: Vec<u8>,
}

impl Model for LineBuffer {
    ghost use Rattle.std.specs.Prelude.{List, ℕ};

    ghost Value = { List ℕ };

    ghost view = { λ h. h.bytes.items };
}

impl LineBuffer {
    /// Nothing of a line.
    pub fn new(alloc: Global) -> Self
        ensures { result ≡ [] }
    {
        LineBuffer {
            bytes: Vec::new(alloc),
        }
    }

    pub fn is_empty(&self) -> bool
        ensures { IsTrue result ↔ (length self.now ≡ 0) }
    {
        self.bytes.is_empty()
    }

    /// What the line asks; none where it is no line of a script.
    pub fn line(&self) -> Option<Line<'_>>
        ensures { (line : List ℕ) → IsBuffered line self.now
            → option_map call_of result ≡ line_of line }
    {
        read_line(self.bytes.as_slice())
    }

    /// More bytes of the line.
    pub fn extend(&mut self, more: &[u8]) -> Result<(), AllocError>
        ensures { OnOk result
            ((line : List ℕ) → IsBuffered line self.old → IsBuffered (line ++ more.now) self.new) }
    {
        let room = (MOST_BYTES + 1).saturating_sub(self.bytes.len());
        let kept = room.min(more.len());
        self.bytes.extend_from_slice(&more[..kept])
    }

    /// Nothing of the next line.
    pub fn clear(&mut self)
        ensures { self.new ≡ [] }
    {
        self.bytes.clear();
    }
}
