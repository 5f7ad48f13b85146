//! Whether a store has the tables of an office.

ghost use Rattle.std.specs.Prelude.{◌≡◌, ◌==◌, ◌≤◌, false, not, IsTrue, IfOk, drop, filter, length, take};
ghost use Rattle.std.specs.List.{AllByRecursion};
ghost use Rattle.sqlite_catalog.specs.Change.{is_used};
ghost use Rattle.reg_tables.specs.Schema.{office_schema, office_table};
ghost use Rattle.reg_tables.specs.Bare.{IsBareTable};
ghost use Rattle.reg_tables.specs.Connection.{Tells};
ghost use Rattle.reg_tables.specs.Having.{AreFree, AreFreeLater, FindsTable, FindsTablesOf, HasTable};

use crate::make::make_tables;
use crate::same::same_definition;
use crate::version::Version;
use sqlite::{Connection, Error};
use sqlite_schema::schema::{Schema, Table};
use std::alloc::Global;

/// How many indexes a schema has for the table in a tree.
fn count_indexes(schema: &Schema, tree: u32) -> usize
    ensures { result ≡ length (filter (λ index. index.table == tree) schema.now.indexes) }
{
    schema
        .indexes
        .as_slice()
        .iter()
        .filter(|index| index.table == tree)
        .count()
}

/// Whether the table of this name in a schema is this one, wherever its tree is, with as many
/// indexes as keys. Of a table that computes something it may say that it is another.
fn finds_table(schema: &Schema, table: &Table) -> bool
    ensures is { IsTrue result → FindsTable schema.now table.now }
    ensures all { IsBareTable table.now → FindsTable schema.now table.now → IsTrue result }
{
    let Some(at) = schema.table_named(table.name.as_slice()) else {
        return false;
    };
    let Some(found) = schema.tables.get(at) else {
        return false;
    };
    same_definition(found, table) && count_indexes(schema, found.tree) == table.uniques.len()
}

/// Whether all these tables are found so.
fn finds_tables(schema: &Schema, mut tables: &[Table]) -> bool
    ensures is { IsTrue result → AllByRecursion (FindsTable schema.now) tables.entry.now }
    ensures all { AllByRecursion IsBareTable tables.entry.now
        → AllByRecursion (FindsTable schema.now) tables.entry.now → IsTrue result }
{
    'tables: while let [table, more @ ..] = tables {
        if !finds_table(schema, table) {
            return false;
        }
        tables = more;
    }
    true
}

/// Whether nothing in a schema has a name.
fn is_free(schema: &Schema, name: &[u8]) -> bool
    ensures { result ≡ not (is_used schema.now name.now) }
{
    schema.table_named(name).is_none()
        && schema.index_named(name).is_none()
        && schema.view_named(name).is_none()
}

/// Whether nothing in a schema has the name of one of these tables.
fn are_free(schema: &Schema, mut tables: &[Table]) -> bool
    ensures { Tells result
        (AllByRecursion (λ table. is_used schema.now table.name ≡ false) tables.entry.now) }
{
    'tables: while let [table, more @ ..] = tables {
        if !is_free(schema, table.name.as_slice()) {
            return false;
        }
        tables = more;
    }
    true
}

/// Whether nothing in a schema has the name of a table that `make_tables` makes.
pub fn has_room(alloc: Global, schema: &Schema) -> Result<bool, Error>
    ensures { IfOk result (λ has. Tells has (AreFree schema.now)) }
{
    let mut conn = Connection::open_in_memory(alloc)?;
    make_tables(&mut conn)?;
    Ok(are_free(schema, conn.schema().tables.as_slice()))
}

/// Whether the first so many of these tables are found in a schema, and nothing in it has the name
/// of one of the others.
fn has_part(schema: &Schema, tables: &[Table], count: usize) -> bool
    requires { count ≤ length tables.now }
    ensures { AllByRecursion IsBareTable tables.now → Tells result
        (AllByRecursion (FindsTable schema.now) (take count tables.now)
        × AllByRecursion (λ table. is_used schema.now table.name ≡ false)
        (drop count tables.now)) }
{
    finds_tables(schema, &tables[..count]) && are_free(schema, &tables[count..])
}

/// Whether a schema has the tables of a version, wherever they stand in it, and nothing has the
/// name of a table that the version lacks.
pub fn has_version(alloc: Global, schema: &Schema, version: Version) -> Result<bool, Error>
    ensures { IfOk result (λ has. Tells has
        (FindsTablesOf version schema.now × AreFreeLater version schema.now)) }
{
    let mut conn = Connection::open_in_memory(alloc)?;
    make_tables(&mut conn)?;
    Ok(has_part(schema, conn.schema().tables.as_slice(), version.tables()))
}

/// Whether a schema has this table by its name, wherever its tree is.
fn has_table(schema: &Schema, table: &Table) -> bool
    ensures is { IsTrue result → HasTable schema.now table.now }
    ensures all { IsBareTable table.now → HasTable schema.now table.now → IsTrue result }
{
    let Some(at) = schema.table_named(table.name.as_slice()) else {
        return false;
    };
    let Some(found) = schema.tables.get(at) else {
        return false;
    };
    same_definition(found, table)
}

/// Whether a schema has the first table of an office that was made.
fn has_first(schema: &Schema, made: &Schema) -> bool
    ensures { made.now ≡ office_schema → Tells result (HasTable schema.now office_table) }
{
    let Some(office) = made.tables.get(0) else {
        return false;
    };
    has_table(schema, office)
}

/// Whether a schema has the table `office`, which says the version, wherever it stands: then its row
/// can be read.
pub fn has_office(alloc: Global, schema: &Schema) -> Result<bool, Error>
    ensures { IfOk result (λ has. Tells has (HasTable schema.now office_table)) }
{
    let mut conn = Connection::open_in_memory(alloc)?;
    make_tables(&mut conn)?;
    Ok(has_first(schema, conn.schema()))
}
