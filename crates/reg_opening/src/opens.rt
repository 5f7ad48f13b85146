//! What an opening asks of a store.
ghost use Rattle.std.specs.Prelude.{IfErr, IfOk};
ghost use Rattle.reg_tables.specs.Connection.{Tells};
ghost use Rattle.reg_tables.specs.Having.{AreFree, AreFreeLater, FindsTablesOf, HasTable};
ghost use Rattle.reg_tables.specs.Schema.{office_table};

use crate::grows::Grows;
use reg_statements::loads::Loads;
use reg_tables::reports::Reports;
use reg_tables::schema;
use reg_tables::version::Version;
use sqlite::{Alter, Error};
use sqlite_schema::schema::Schema;
use std::alloc::Global;

/// A store of which an opening tells why it is given up: it tells which errors its library reported, and
/// where memory was refused.
pub trait Opens: Reports + Loads + Grows {
    /// Whether a schema has the table `office`, which says the version, wherever it stands.
    fn has_office(alloc: Global, schema: &Schema) -> Result<bool, Error>
        ensures has { IfOk result (λ has. Tells has (HasTable schema.now office_table)) }
        ensures reported { IfErr result Self.Reported };

    /// Whether nothing in a schema has the name of a table of an office.
    fn has_room(alloc: Global, schema: &Schema) -> Result<bool, Error>
        ensures has { IfOk result (λ has. Tells has (AreFree schema.now)) }
        ensures reported { IfErr result Self.Reported };

    /// Whether a schema has the tables of a version, wherever they stand in it, and nothing has the
    /// name of a table that the version lacks.
    fn has_version(alloc: Global, schema: &Schema, version: Version) -> Result<bool, Error>
        ensures has { IfOk result (λ has. Tells has
            (FindsTablesOf version schema.now × AreFreeLater version schema.now)) }
        ensures reported { IfErr result Self.Reported };
}

/// Each store: the library reports what the making of the tables in memory answers.
impl<S: Alter> Opens for S {
    fn has_office(alloc: Global, schema: &Schema) -> Result<bool, Error> {
        schema::has_office(alloc, schema)
    }

    fn has_room(alloc: Global, schema: &Schema) -> Result<bool, Error> {
        schema::has_room(alloc, schema)
    }

    fn has_version(alloc: Global, schema: &Schema, version: Version) -> Result<bool, Error> {
        schema::has_version(alloc, schema, version)
    }
}
