//! Whether two parts of schemas are the same, told for what computes nothing.

ghost use Rattle.std.specs.Prelude.{◌≡◌, IsTrue, []};
ghost use Rattle.std.specs.List.{AllByRecursion};
ghost use Rattle.reg_tables.specs.Bare.{IsBareColumn, IsBareTable, no_stamps};
ghost use Rattle.reg_tables.specs.Having.{unplaced};

use sqlite_items::Items;
use sqlite_schema::code::Terms;
use sqlite_schema::schema::{Column, Reference, Stamps, Table};
use sqlite_value::keys::Order;
use sqlite_value::value::{Bytes, Value};

/// What can be told from others. Of a value that is not `IsBare` it may say that it is another.
pub trait Same {
    ghost IsBare: { Self → Type 0 };

    /// Whether both are the same.
    fn same(&self, other: &Self) -> bool
        ensures is { IsTrue result → self.now ≡ other.now }
        ensures all { IsBare other.now → self.now ≡ other.now → IsTrue result };
}

impl Same for usize {
    ghost IsBare = { λ _. Unit {0} };

    fn same(&self, other: &usize) -> bool {
        *self == *other
    }
}

impl Same for Bytes {
    ghost IsBare = { λ _. Unit {0} };

    fn same(&self, other: &Bytes) -> bool {
        self.as_slice() == other.as_slice()
    }
}

impl Same for Order {
    ghost IsBare = { λ _. Unit {0} };

    fn same(&self, other: &Order) -> bool {
        self.digits == other.digits
    }
}

impl<T: Same> Same for Items<T> {
    ghost IsBare = { AllByRecursion T.IsBare };

    fn same(&self, other: &Items<T>) -> bool {
        if self.len() != other.len() {
            return false;
        }
        let mut at = 0;
        'items: while at < self.len() {
            let (Some(a), Some(b)) = (self.get(at), other.get(at)) else {
                return false;
            };
            if !a.same(b) {
                return false;
            }
            at += 1;
        }
        true
    }
}

impl Same for Column {
    ghost IsBare = { IsBareColumn };

    fn same(&self, other: &Column) -> bool {
        self.name.same(&other.name)
            && self.kind == other.kind
            && self.is_strict == other.is_strict
            && self.not_null == other.not_null
            && self.collation == other.collation
            && matches!(self.default, Value::Null)
            && matches!(other.default, Value::Null)
    }
}

impl Same for Reference {
    ghost IsBare = { λ _. Unit {0} };

    fn same(&self, other: &Reference) -> bool {
        self.columns.same(&other.columns)
            && self.parent.same(&other.parent)
            && self.parent_columns.same(&other.parent_columns)
            && self.on_delete == other.on_delete
            && self.on_update == other.on_update
            && self.is_deferred == other.is_deferred
    }
}

/// Whether there is no expression.
fn is_empty(terms: &Terms) -> bool
    ensures is { IsTrue result → terms.now ≡ [] }
    ensures all { terms.now ≡ [] → IsTrue result }
{
    terms.roots.is_empty()
}

/// Whether no default reads the time.
fn is_unstamped(stamps: &Stamps) -> bool
    ensures is { IsTrue result → stamps.now ≡ no_stamps }
    ensures all { stamps.now ≡ no_stamps → IsTrue result }
{
    stamps.places.is_empty() && stamps.formats.is_empty() && is_empty(&stamps.terms)
}

/// Whether a table has no CHECK, computes no column and reads no time.
fn computes_nothing(table: &Table) -> bool
    ensures checks { IsTrue result → table.now.checks ≡ [] }
    ensures computed { IsTrue result → table.now.computed ≡ [] }
    ensures stamps { IsTrue result → table.now.stamps ≡ no_stamps }
    ensures all { IsBareTable table.now → IsTrue result }
{
    is_empty(&table.checks) && table.computed.is_empty() && is_unstamped(&table.stamps)
}

/// Whether two tables are the same, whatever their trees are.
pub fn same_definition(a: &Table, b: &Table) -> bool
    ensures is { IsTrue result → unplaced a.now ≡ unplaced b.now }
    ensures all { IsBareTable b.now → unplaced a.now ≡ unplaced b.now → IsTrue result }
{
    computes_nothing(a)
        && computes_nothing(b)
        && a.name.same(&b.name)
        && a.columns.same(&b.columns)
        && a.key == b.key
        && a.primary.same(&b.primary)
        && a.uniques.same(&b.uniques)
        && a.orders.same(&b.orders)
        && a.references.same(&b.references)
        && a.is_counted == b.is_counted
}

impl Same for Table {
    ghost IsBare = { IsBareTable };

    fn same(&self, other: &Table) -> bool {
        self.tree == other.tree && same_definition(self, other)
    }
}
