//! The lines of a script, answered in turn by any responder.
ghost use Rattle.std.specs.Prelude.{◌≡◌, ◌+◌, ◌++◌, OnOk, IfOk, IfErr, length};
ghost use Rattle.std.specs.Io.KnownBytes.{Appends};
ghost use Rattle.reg_wire.specs.Script.Lines.{ended, AnswersAll, IsOneLine, StopsAt};
ghost use Rattle.reg_wire.specs.Script.LineBuffer.{AnswersLine, CutShort, FromProgress, Progress, Whole, Halted, HaltedLast};

use crate::script::line_buffer::LineBuffer;
use crate::script::responder::{Responder, Unanswered};
use crate::script::sending::send_answer;
use crate::wire_fault::WireFault;
use memchr::memchr;
use std::alloc::Global;
use std::io::{Read, Write};

const MOST_READS: u32 = 16_777_216;

/// Answers the lines of a script in turn.
pub(crate) fn respond_all<A: Responder, R: Read, W: Write>(
    alloc: Global,
    responder: &mut A,
    routes: &A::Routes,
    reader: &mut R,
    writer: &mut W,
) -> Result<(), WireFault>
    ensures ok { OnOk result (AnswersAll A.Serves responder.old responder.new
        (R.remaining reader.old) (R.remaining reader.new) (W.contents writer.old)
        (W.contents writer.new)) }
    ensures err { IfErr result
        (λ fault. StopsAt A.Serves fault responder.old responder.new
        (R.remaining reader.old) (R.remaining reader.new) (W.contents writer.old)
        (W.contents writer.new)) }
{
    let mut buffer = LineBuffer::new(alloc);
    let mut buf = [0u8; 4096];
    let mut sent = 0;
    for _made in 0..MOST_READS {
        let Ok(count) = reader.read(&mut buf) else {
            return Err(WireFault::Read);
        };
        if count == 0 {
            return finish(alloc, responder, routes, writer, &buffer, sent);
        }
        let piece = &buf[..count];
        sent = take_piece(alloc, responder, routes, writer, &mut buffer, sent, piece)?;
    }
    Err(WireFault::Read)
}

// Answers the line in the buffer; gives how many bytes went out by now.
fn answer_buffered<A: Responder, W: Write>(
    alloc: Global,
    responder: &mut A,
    routes: &A::Routes,
    writer: &mut W,
    buffer: &LineBuffer,
    sent: usize,
) -> Result<usize, WireFault>
    ensures ok { IfOk result
        (λ n. AnswersLine A.Serves responder.old buffer.now responder.new
        (λ answer. Appends (W.contents writer.old) (W.contents writer.new) (ended answer)
        × (n ≡ sent + length (ended answer)))) }
    ensures err { IfErr result
        (λ fault. AnswersLine A.Serves responder.old buffer.now responder.new
        (λ answer. CutShort fault sent answer (W.contents writer.old) (W.contents writer.new))) }
{
    let Some(line) = buffer.line() else {
        return send_answer(writer, b"400 {\"error\":\"line\"}\n", sent);
    };
    match responder.respond(alloc, routes, &line) {
        Ok(answer) => send_answer(writer, answer.as_slice(), sent),
        Err(Unanswered::Storage) => send_answer(writer, b"503 {\"error\":\"storage\"}\n", sent),
        Err(Unanswered::Memory) => Err(WireFault::Memory),
    }
}

// Takes the last bytes of a line, which end before its line feed, and answers the line.
fn take_line<A: Responder, W: Write>(
    alloc: Global,
    responder: &mut A,
    routes: &A::Routes,
    writer: &mut W,
    buffer: &mut LineBuffer,
    sent: usize,
    last: &[u8],
) -> Result<usize, WireFault>
    requires { IsOneLine last.now }
    ensures ok { IfOk result
        (λ n. FromProgress A.Serves buffer.old sent responder.old (W.contents writer.old)
        (λ first had bytes. Progress A.Serves first had (bytes ++ ended last.now) buffer.new n
        responder.new (W.contents writer.new))) }
    ensures err { IfErr result
        (λ fault. FromProgress A.Serves buffer.old sent responder.old (W.contents writer.old)
        (λ first had bytes. Halted A.Serves fault first had (bytes ++ ended last.now) responder.new
        (W.contents writer.new))) }
{
    buffer.extend(last)?;
    let sent = answer_buffered(alloc, responder, routes, writer, buffer, sent)?;
    buffer.clear();
    Ok(sent)
}

// Takes some bytes of the script.
fn take_piece<A: Responder, W: Write>(
    alloc: Global,
    responder: &mut A,
    routes: &A::Routes,
    writer: &mut W,
    buffer: &mut LineBuffer,
    sent: usize,
    piece: &[u8],
) -> Result<usize, WireFault>
    ensures ok { IfOk result
        (λ n. FromProgress A.Serves buffer.old sent responder.old (W.contents writer.old)
        (λ first had bytes. Progress A.Serves first had (bytes ++ piece.now) buffer.new n
        responder.new (W.contents writer.new))) }
    ensures err { IfErr result
        (λ fault. FromProgress A.Serves buffer.old sent responder.old (W.contents writer.old)
        (λ first had bytes. Halted A.Serves fault first had (bytes ++ piece.now) responder.new
        (W.contents writer.new))) }
{
    let mut total = sent;
    let mut rest = piece;
    'lines: while let Some(at) = memchr(b'\n', rest) {
        total = take_line(alloc, responder, routes, writer, buffer, total, &rest[..at])?;
        rest = &rest[at + 1..];
    }
    buffer.extend(rest)?;
    Ok(total)
}

// Answers a last line that lacks its line feed.
fn finish<A: Responder, W: Write>(
    alloc: Global,
    responder: &mut A,
    routes: &A::Routes,
    writer: &mut W,
    buffer: &LineBuffer,
    sent: usize,
) -> Result<(), WireFault>
    ensures ok { OnOk result
        (FromProgress A.Serves buffer.now sent responder.old (W.contents writer.old)
        (λ first had bytes. Whole A.Serves first had bytes responder.new
        (W.contents writer.new))) }
    ensures err { IfErr result
        (λ fault. FromProgress A.Serves buffer.now sent responder.old (W.contents writer.old)
        (λ first had bytes. HaltedLast A.Serves fault first had bytes responder.new
        (W.contents writer.new))) }
{
    if buffer.is_empty() {
        return Ok(());
    }
    answer_buffered(alloc, responder, routes, writer, buffer, sent)?;
    Ok(())
}
