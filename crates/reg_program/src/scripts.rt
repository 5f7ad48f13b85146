//! The job that has an office answer the lines of a script.
ghost use Rattle.std.specs.Prelude.{OnOk, IfErr};
ghost use Rattle.reg_wire.specs.Script.Answers.{ServesOver};
ghost use Rattle.reg_wire.specs.Script.Lines.{AnswersAll, StopsAt};
ghost use Rattle.reg_program.specs.Founding.{RunsAll, RunsAllOn, RunsUpTo, RunsUpToOn};

use crate::console::Console;
use crate::faults::Undone;
use reg_keeper::keeper::Keeper;
use reg_office::Office;
use reg_wire::script::run;
use reg_wire::wire_fault::WireFault;
use std::alloc::Global;
use std::io::{Read, Write};

/// Founds an office, and answers the lines of standard input.
pub fn run_in<K: Keeper, R: Read, W: Write, E: Write>(
    alloc: Global,
    office: &mut Office<K>,
    clerk: &[u8],
    console: &mut Console<'_, R, W, E>,
) -> Result<(), Undone>
    ensures ok { OnOk result (RunsAllOn K.world K.Holds K.Sound K.FAILS R.remaining W.contents
        console.old console.new office.old office.new clerk.now) }
    ensures err { IfErr result (RunsUpToOn K.world K.Holds K.Sound K.FAILS R.remaining W.contents
        console.old console.new office.old office.new clerk.now) }
{
    found_and_run(alloc, office, clerk, console.input, console.output)
}

/// Founds an office, and answers the lines. What counts the answers, as `Progress` does, learns by a flush
/// that there are no more.
pub fn found_and_run<K: Keeper, R: Read, W: Write>(
    alloc: Global,
    office: &mut Office<K>,
    clerk: &[u8],
    input: &mut R,
    output: &mut W,
) -> Result<(), Undone>
    ensures ok { OnOk result
        (RunsAll K.world K.Holds K.Sound K.FAILS office.old office.new clerk.now
        (R.remaining input.old) (R.remaining input.new) (W.contents output.old)
        (W.contents output.new)) }
    ensures err { IfErr result
        (RunsUpTo K.world K.Holds K.Sound K.FAILS office.old office.new clerk.now
        (R.remaining input.old) (R.remaining input.new) (W.contents output.old)
        (W.contents output.new)) }
{
    office.found(clerk)?;
    run_flushed(alloc, office, input, output)?;
    Ok(())
}

// Answers the lines, and flushes the answers. It does not matter whether that succeeds.
fn run_flushed<K: Keeper, R: Read, W: Write>(
    alloc: Global,
    office: &mut Office<K>,
    input: &mut R,
    output: &mut W,
) -> Result<(), WireFault>
    ensures ok { OnOk result
        (AnswersAll (ServesOver K.world K.Holds K.Sound K.FAILS) office.old office.new
        (R.remaining input.old) (R.remaining input.new) (W.contents output.old)
        (W.contents output.new)) }
    ensures err { IfErr result
        (λ fault. StopsAt (ServesOver K.world K.Holds K.Sound K.FAILS) fault office.old office.new
        (R.remaining input.old) (R.remaining input.new) (W.contents output.old)
        (W.contents output.new)) }
{
    let done = run(alloc, office, input, output);
    let _ = output.flush();
    done
}
