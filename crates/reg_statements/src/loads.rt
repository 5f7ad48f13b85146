//! Rows that are read, and put into lists.
ghost use Rattle.std.specs.Prelude.{◌≡◌, ◌++◌, [], ◌∷◌, IfOk, OnErr, OnOk};

use reg_records::record::Record;
use sqlite::Row;
use std::alloc::{AllocError, Global};

/// What tells that memory was refused to a row. Over a type parameter nothing else tells it, so a
/// clause that asks for it refuses a want of memory that was made up.
pub trait Loads {
    /// Memory was refused where a row was read or put into a list.
    ghost Unloaded: { Type 0 };

    /// The value of a row; none where a column has another form.
    fn read_row<T: Record>(alloc: Global, row: &Row) -> Result<Option<T>, AllocError>
        ensures value { IfOk result (λ value. value ≡ T.of row.now) }
        ensures refused { OnErr result Unloaded };

    /// Puts a row behind others.
    fn list_row<T: Record>(rows: &mut Vec<T>, row: T) -> Result<(), AllocError>
        ensures listed { OnOk result (rows.new.items ≡ rows.old.items ++ row ∷ []) }
        ensures refused { OnErr result Unloaded };
}

/// Each type: memory is refused where a record is refused it, or the library's list cannot grow.
impl<S> Loads for S {
    ghost Unloaded = { Unit {0} };

    fn read_row<T: Record>(alloc: Global, row: &Row) -> Result<Option<T>, AllocError> {
        T::read(alloc, row)
    }

    fn list_row<T: Record>(rows: &mut Vec<T>, row: T) -> Result<(), AllocError> {
        rows.push(row)?;
        Ok(())
    }
}
