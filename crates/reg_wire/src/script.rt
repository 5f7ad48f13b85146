//! A script: its lines are answered in turn.
ghost use Rattle.std.specs.Prelude.{OnOk, IfErr};
ghost use Rattle.reg_wire.specs.Script.Lines.{AnswersAll, StopsAt};
ghost use Rattle.reg_wire.specs.Script.Answers.{ServesOver};

pub mod laws;
mod line;
mod line_buffer;
mod lines;
mod office_responder;
mod responder;
mod sending;

use crate::wire_fault::WireFault;
use lines::respond_all;
use reg_keeper::keeper::Keeper;
use reg_office::Office;
use reg_parse::route::Routes;
use std::alloc::Global;
use std::io::{Read, Write};

/// Answers the lines of a script in turn. A line is `moment token METHOD path body`, with one space
/// between: the moment in seconds since 1970-01-01T00:00:00Z, the token `-` where there is none,
/// and the body the rest of the line, with a TAB for each line feed of it, or missing with its
/// space. The answer is a line too: the status and the body, with a TAB for each line feed of it.
/// The last line of the script may lack its line feed.
///
/// A line that has not this form, or has more than 65,536 bytes, gets `400 {"error":"line"}`, and
/// one at which the store or memory failed `503 {"error":"storage"}`, with the content of the
/// office unchanged.
///
/// `Read` where a read failed, and after 16,777,216 reads that each gave at least a byte: all lines
/// whose line feed was read were answered. `Write(n)` where a write failed or took
/// nothing: exactly the first n bytes of the answers went out, and the line whose answer was cut
/// short was carried out. `Memory` where there was none to hold a line, or an answer: the lines
/// before were answered, and the last may have been carried out, but not where the store failed at
/// it: that line is answered. That a read or a write failed where so much is given as the cause,
/// and that there are no more reads, is tested.
pub fn run<K: Keeper, R: Read, W: Write>(
    alloc: Global,
    office: &mut Office<K>,
    reader: &mut R,
    writer: &mut W,
) -> Result<(), WireFault>
    ensures ok { OnOk result
        (AnswersAll (ServesOver K.world K.Holds K.Sound K.FAILS) office.old office.new
        (R.remaining reader.old) (R.remaining reader.new) (W.contents writer.old)
        (W.contents writer.new)) }
    ensures err { IfErr result
        (λ fault. StopsAt (ServesOver K.world K.Holds K.Sound K.FAILS) fault office.old office.new
        (R.remaining reader.old) (R.remaining reader.new) (W.contents writer.old)
        (W.contents writer.new)) }
{
    let routes = Routes::new(alloc)?;
    respond_all(alloc, office, &routes, reader, writer)
}
