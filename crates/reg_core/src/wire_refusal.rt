//! Why bytes spell no command.
ghost use Rattle.std.specs.Prelude.{◌≡◌, Some};
ghost use Rattle.reg_core.specs.WireRefusal.{table_fault_text, fault_of_row, fault_of_table};
ghost use Rattle.reg_core.specs.declared.wire_refusal.ReadFault.TheVariants.{Memory};

use crate::item::Item;
use reg_ranges::range_file::{RowFault, RowPart};
use reg_ranges::table::RangeFault;
use std::alloc::AllocError;
use std::fmt;

/// Why bytes spell no command, in the order in which it is looked for.
#[derive(Clone, Copy, Debug, PartialEq, Eq)]
pub enum WireRefusal {
    /// A line of a script has not the form of one.
    Line,
    /// No route matches the path, or the path is not UTF-8 or has an empty segment.
    Route,
    /// The path has a route, but not for this method.
    Method,
    /// The body is there where it must be empty, or is not one JSON object (RFC 8259 section 4).
    Body,
    /// A part of the request has not its form, is missing, or should not be there.
    Field(Item),
    /// The body is no range file, or its ranges are no partition of 0 to the largest value.
    Ranges(TableFault),
}

/// Why a body is no table of ranges.
#[derive(Clone, Copy, Debug, PartialEq, Eq)]
pub enum TableFault {
    /// The first record is not `lo,hi,treatment,note`.
    Header,
    /// This part of the row at this place, counted from 0 after the header, has not its form.
    Row(usize, RowPart),
    /// The ranges are no partition.
    Table(RangeFault),
}

impl fmt::Display for TableFault {
    ghost output = { λ f. Some (table_fault_text f) };

    fn fmt<W: fmt::Write>(&self, f: &mut fmt::Formatter<W>) -> fmt::Result {
        match self {
            TableFault::Header => write!(f, "{}", RowFault::Header),
            TableFault::Row(n, part) => write!(f, "{}", RowFault::Row(*n, *part)),
            TableFault::Table(fault) => write!(f, "{fault}"),
        }
    }
}

/// Why no command was read.
#[derive(Clone, Copy, Debug, PartialEq, Eq)]
pub enum ReadFault {
    /// The bytes spell none.
    Refused(WireRefusal),
    /// There was no memory for it.
    Memory,
}

impl ReadFault {
    /// That this part of the request is at fault.
    pub fn field(item: Item) -> Self
        ensures { result ≡ ReadFault.Refused (WireRefusal.Field item) }
    {
        ReadFault::Refused(WireRefusal::Field(item))
    }

    /// That the range file is at fault.
    pub fn ranges(fault: TableFault) -> Self
        ensures { result ≡ ReadFault.Refused (WireRefusal.Ranges fault) }
    {
        ReadFault::Refused(WireRefusal::Ranges(fault))
    }
}

impl From<AllocError> for ReadFault {
    ghost from_gives = { λ _ fault. fault ≡ Memory };

    fn from(_error: AllocError) -> ReadFault {
        ReadFault::Memory
    }
}

impl From<RowFault> for ReadFault {
    ghost from_gives = { λ fault gave. gave ≡ fault_of_row fault };

    fn from(fault: RowFault) -> ReadFault {
        match fault {
            RowFault::Header => ReadFault::ranges(TableFault::Header),
            RowFault::Row(n, part) => ReadFault::ranges(TableFault::Row(n, part)),
            RowFault::Memory => ReadFault::Memory,
        }
    }
}

impl From<RangeFault> for ReadFault {
    ghost from_gives = { λ fault gave. gave ≡ fault_of_table fault };

    fn from(fault: RangeFault) -> ReadFault {
        ReadFault::ranges(TableFault::Table(fault))
    }
}
