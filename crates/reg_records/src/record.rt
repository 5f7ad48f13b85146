//! A row of a table as a value.
ghost use Rattle.std.specs.Prelude.{◌≡◌, IfOk, OnErr, Option};
ghost use Rattle.std.specs.declared.cmp.Ordering.{Ordering};
ghost use Rattle.sqlite.specs.Order.{Row as SqlRow};

use sqlite::Row;
use std::alloc::{AllocError, Global};
use std::cmp::Ordering;

// What a column holds that has its form; of a row with one that has not, nothing is read.
macro_rules! in_form {
    ($read:expr) => {
        match $read {
            Some(value) => value,
            None => return Ok(None),
        }
    };
}

pub(crate) use in_form;

/// What a row of a table holds, where each column has its form.
pub trait Record: Drop {
    /// What the columns of a row hold, in the order of the table's columns.
    ghost of: { SqlRow → Option Self };

    /// Memory was refused where such a row was read.
    ghost Unread: { Type 0 } = { Unit {0} };

    /// The value of a row; none where a column has another form.
    fn read(alloc: Global, row: &Row) -> Result<Option<Self>, AllocError>
        ensures value { IfOk result (λ value. value ≡ of row.now) }
        ensures refused { OnErr result Unread };
}

/// A value of a row with a place among the others of its table.
pub trait Keyed: Record {
    /// The order of the keys.
    ghost order: { Self → Self → Ordering };

    /// How the key compares with that of another row.
    fn compare(&self, other: &Self) -> Ordering
        ensures { result ≡ order self.now other.now };
}
