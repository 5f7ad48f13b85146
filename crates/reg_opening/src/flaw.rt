//! Why a store is no office's.
use std::fmt;
use std::fmt::{Display, Formatter, Write};

/// Why a store is no office's, nor one of a version that is not known.
#[derive(Clone, Copy, Debug, PartialEq, Eq)]
pub enum Flaw {
    /// There is no table `office` with its one column.
    NoOffice,
    /// The table `office` has not one row, or that does not read.
    NoVersion,
    /// A table of its version is missing, or is another by its definition, or something has the name of
    /// a table that the version lacks.
    OtherTables,
    /// The tables are there, and their rows have this flaw.
    Rows(RowFlaw),
}

/// What is wrong with the rows of an office's tables. A table is told by its place among them, from 0.
#[derive(Clone, Copy, Debug, PartialEq, Eq)]
pub enum RowFlaw {
    /// A row of the table in this place does not read.
    Unread(usize),
    /// A row of the table in this place does not fit the rows before it.
    Unfit(usize),
    /// They make no well kept office.
    Unkept,
}

impl Display for Flaw {
    fn fmt<W: Write>(&self, f: &mut Formatter<W>) -> fmt::Result {
        match self {
            Flaw::NoOffice => f.write_str("it does not have the tables of an office"),
            Flaw::NoVersion => f.write_str(
                "its table office does not have exactly one row, with a version",
            ),
            Flaw::OtherTables => f.write_str(
                "a table of its version is missing or different, or the name of a later one is taken",
            ),
            Flaw::Rows(flaw) => write!(f, "{flaw}"),
        }
    }
}

impl Display for RowFlaw {
    fn fmt<W: Write>(&self, f: &mut Formatter<W>) -> fmt::Result {
        match self {
            RowFlaw::Unread(place) => {
                let table = table_name(*place);
                write!(f, "a row of the table {table} is malformed")
            }
            RowFlaw::Unfit(place) => {
                let table = table_name(*place);
                write!(
                    f,
                    "a row of the table {table} does not fit the rows before it"
                )
            }
            RowFlaw::Unkept => f.write_str("its tables are not those of a well kept office"),
        }
    }
}

/// The name of the table in a place.
fn table_name(place: usize) -> &'static str {
    match place {
        0 => "office",
        1 => "caps",
        2 => "registries",
        3 => "ranges",
        4 => "entries",
        5 => "requests",
        6 => "queue",
        7 => "advice",
        8 => "pool",
        9 => "blocks",
        10 => "holds",
        11 => "minutes",
        12 => "agents",
        13 => "journal",
        _ => "",
    }
}
