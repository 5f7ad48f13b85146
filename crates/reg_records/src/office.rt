//! Versions of the tables as rows of the table `office`.
ghost use Rattle.std.specs.Prelude.{◌≡◌};
ghost use Rattle.sqlite.specs.Values.{bound};
ghost use Rattle.reg_records.specs.Office.{version_in, version_values};

use crate::column::int;
use crate::record::Record;
use sqlite::Row;
use sqlite::types::ValueRef;
use std::alloc::{AllocError, Global};
use std::marker::Model;

/// The version of an office's tables: any whole number.
#[derive(Clone, Copy, Debug, PartialEq, Eq)]
pub struct Version {
    number: i64,
}

impl Model for Version {
    ghost use Rattle.std.specs.Prelude.{ℤ};

    ghost Value = { ℤ };

    ghost view = { λ version. version.number };

    ghost inverse = { λ number. record { number = number } };
}

impl Record for Version {
    ghost of = { version_in };

    fn read(_: Global, row: &Row) -> Result<Option<Self>, AllocError> {
        Ok(int(row, 0).map(Version::new))
    }
}

impl Version {
    /// The version of this number.
    pub fn new(number: i64) -> Self
        ensures { result ≡ number }
    {
        Version { number }
    }

    /// The number.
    pub fn number(self) -> i64
        ensures { result ≡ self }
    {
        self.number
    }

    /// The row that is written: version.
    pub fn values(&self) -> [ValueRef<'static>; 1]
        ensures { bound result ≡ version_values self.now }
    {
        [ValueRef::Int(self.number)]
    }
}
