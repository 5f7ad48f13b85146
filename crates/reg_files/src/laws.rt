//! What the program says of the offices in files.
ghost use Rattle.reg_files.specs.Laws.{OfficeVersionIsTheNewest};

/// The version of the offices that `--version` prints is that of the tables.
pub fn office_version_is_the_newest()
    ensures { OfficeVersionIsTheNewest }
{}
