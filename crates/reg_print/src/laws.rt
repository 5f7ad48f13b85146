//! Laws of what is printed, over its definitions.
ghost use Rattle.reg_print.specs.Laws.{RowsCoverRanges};

/// The rows of a range have its values, each in one row, where the entries ascend by value.
pub fn rows_cover_ranges()
    ensures { RowsCoverRanges }
{}
