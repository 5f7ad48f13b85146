//! Rows that are gathered one by one.
ghost use Rattle.std.specs.Prelude.{◌≡◌, ◌++◌, ◌∷◌, [], IfOk};

use std::alloc::AllocError;

/// Rows with one more.
pub fn with_row<T: Drop>(mut rows: Vec<T>, row: T) -> Result<Vec<T>, AllocError>
    ensures { IfOk result (λ more. more.items ≡ rows.items ++ row ∷ []) }
{
    rows.push(row)?;
    Ok(rows)
}
