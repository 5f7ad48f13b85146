//! What the refusals of answers are about.
ghost use Rattle.std.specs.Prelude.{Some};
ghost use Rattle.reg_print.specs.Detail.{detail_text};

use reg_core::item::Item;
use reg_core::wire_refusal::TableFault;
use reg_ranges::evidence;
use std::fmt;

/// What a refusal is about.
#[derive(Clone, Copy, Debug, PartialEq, Eq)]
pub enum Detail {
    /// A part of the request.
    Part(Item),
    /// What a policy asks for (RFC 8126 section 4).
    Evidence(evidence::Item),
    /// A fault of a range file.
    Ranges(TableFault),
}

impl fmt::Display for Detail {
    ghost output = { λ d. Some (detail_text d) };

    fn fmt<W: fmt::Write>(&self, f: &mut fmt::Formatter<W>) -> fmt::Result {
        match self {
            Detail::Part(item) => write!(f, "{}", item.name()),
            Detail::Evidence(item) => write!(f, "{}", item.word()),
            Detail::Ranges(fault) => write!(f, "{fault}"),
        }
    }
}
