//! The versions of the schema.

ghost use Rattle.std.specs.Prelude.{◌≡◌};
ghost use Rattle.reg_tables.specs.Version.{number_of, table_count};

/// A version of the schema, which has the tables of those before it.
#[derive(Clone, Copy, Debug, PartialEq, Eq, Drop)]
pub enum Version {
    First,
    Second,
    Third,
    Fourth,
}

/// The version that the tables are made of.
pub const NEWEST: Version = Version::Fourth;

impl Version {
    /// The number by which a store says its version.
    pub fn number(self) -> i64
        ensures { result ≡ number_of self }
    {
        match self {
            Version::First => 1,
            Version::Second => 2,
            Version::Third => 3,
            Version::Fourth => 4,
        }
    }

    /// How many tables it has.
    pub fn tables(self) -> usize
        ensures { result ≡ table_count self }
    {
        match self {
            Version::First => 10,
            Version::Second => 12,
            Version::Third => 13,
            Version::Fourth => 14,
        }
    }
}
