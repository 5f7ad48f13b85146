//! Rows of a table with their rowids.
ghost use Rattle.std.specs.Prelude.{◌≡◌, ◌++◌, ℤ, List, [], ◌∷◌, Option};
ghost use Rattle.reg_opening.specs.Numbered.{HasRisen, numbered_in};

use crate::feed::{Fed, FedRow};
use crate::row::Row as AuditRow;
use reg_records::column::int;
use reg_records::record::Record;
use sqlite::Row;
use std::alloc::{AllocError, Global};

/// A row of a table with its rowid, if that is a whole number.
#[derive(Drop)]
pub struct Numbered<T> {
    value: T,
    rowid: Option<i64>,
}

impl<T: FedRow> Record for Numbered<T> {
    ghost of = { numbered_in T.of T.table.width };

    ghost Unread = { T.Unread };

    fn read(alloc: Global, row: &Row) -> Result<Option<Self>, AllocError> {
        match T::read(alloc, row)? {
            Some(value) => Ok(Some(Numbered {
                value,
                rowid: int(row, T::width()),
            })),
            None => Ok(None),
        }
    }
}

impl<T: FedRow> Fed for Numbered<T> {
    ghost row_of = { λ numbered. T.row_of numbered.value };

    fn row(self) -> AuditRow {
        self.value.row()
    }
}

impl<T> Numbered<T> {
    /// Its rowid.
    pub fn rowid(&self) -> Option<i64>
        ensures { result ≡ self.now.rowid }
    {
        self.rowid
    }
}

/// How far the rowids of rows have risen.
#[derive(Clone, Copy)]
pub struct Rise {
    /// That of the last row.
    last: Option<i64>,
    /// Whether each row had one, and that of the next was above it.
    holds: bool,
}

impl Rise {
    /// Of no rows.
    pub fn none() -> Self
        ensures { HasRisen result [] }
    {
        Rise {
            last: None,
            holds: true,
        }
    }

    /// Of a row more.
    pub fn then(self, rowid: Option<i64>) -> Self
        ensures { (rowids : List (Option ℤ)) → HasRisen self rowids
            → HasRisen result (rowids ++ rowid ∷ []) }
    {
        let rises = match (self.last, rowid) {
            (Some(last), Some(rowid)) => last < rowid,
            (None, Some(_)) => true,
            (_, None) => false,
        };
        Rise {
            last: rowid,
            holds: self.holds && rises,
        }
    }

    /// Whether each row had a rowid, and that of the next was above it.
    pub fn holds(self) -> bool
        ensures { result ≡ self.holds }
    {
        self.holds
    }
}
