//! Writes the lines of answers, and counts the bytes that went out.
ghost use Rattle.std.specs.Prelude.{◌≡◌, ◌+◌, List, ℕ, IfOk, IfErr, length};
ghost use Rattle.std.specs.Io.KnownBytes.{Appends};
ghost use Rattle.reg_wire.specs.Script.Lines.{ended};
ghost use Rattle.reg_wire.specs.Script.LineBuffer.{CutShort};

use crate::sending::send;
use crate::wire_fault::WireFault;
use std::io::Write;

/// Writes the line of an answer, after `sent` bytes of others; gives how many bytes went out by now.
pub(crate) fn send_answer<W: Write>(
    writer: &mut W,
    line: &[u8],
    sent: usize,
) -> Result<usize, WireFault>
    ensures ok { IfOk result
        (λ n. (n ≡ sent + length line.now)
        × Appends (W.contents writer.old) (W.contents writer.new) line.now) }
    ensures err { IfErr result
        (λ fault. (answer : List ℕ) → line.now ≡ ended answer
        → CutShort fault sent answer (W.contents writer.old) (W.contents writer.new)) }
{
    if line.len() > usize::MAX - sent {
        return Err(WireFault::Write(sent));
    }
    match send(writer, line) {
        Ok(()) => Ok(sent + line.len()),
        Err(n) => Err(WireFault::Write(sent + n)),
    }
}
