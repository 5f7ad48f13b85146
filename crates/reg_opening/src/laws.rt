//! The laws of the rows of an office. Each function is its contract.
ghost use Rattle.reg_opening.specs.Laws.{PartsAreWellKept, RowsDecide};

/// A world with a row more is well kept exactly where it was so without the row, and the row fits
/// it.
pub fn rows_decide()
    ensures { RowsDecide }
{}

/// A part of a well kept world that has all rows by which its own are judged is well kept: rows
/// that are read later mend nothing.
pub fn parts_are_well_kept()
    ensures { PartsAreWellKept }
{}
