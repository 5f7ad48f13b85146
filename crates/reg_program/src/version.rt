//! The version of the program.
ghost use Rattle.std.specs.Prelude.{OnOk, IfErr};
ghost use Rattle.std.specs.Io.KnownBytes.{Appends};
ghost use Rattle.reg_program.specs.Undone.{IsOfPrinting};
ghost use Rattle.reg_program.specs.Version.{version_line};

use crate::asking::print;
use crate::faults::Undone;
use reg_jobs::jobs::VERSION;
use std::alloc::Global;
use std::io::Write;

/// The version of the offices that the program keeps in files.
pub const OFFICE_VERSION: i64 = 4;

/// Prints the version of the program, and that of the offices that it keeps, in one line.
pub fn print_version<W: Write>(alloc: Global, output: &mut W) -> Result<(), Undone>
    ensures ok { OnOk result
        (Appends (W.contents output.old) (W.contents output.new) version_line) }
    ensures err { IfErr result IsOfPrinting }
{
    let line = format!(in alloc; "reg_cli {VERSION} (office version {OFFICE_VERSION})\n")?;
    print(output, line.as_bytes())
}
