//! Writes an answer.
ghost use Rattle.std.specs.Prelude.{◌≡◌, ◌≢◌, true, false, IfOk, IfErr};
ghost use Rattle.std.specs.Io.KnownBytes.{Appends};
ghost use Rattle.reg_wire.specs.Response.{response_text, sent_as};
ghost use Rattle.reg_wire.specs.Sending.{IsUnsent};
ghost use Rattle.reg_wire.specs.Serving.{storage};

use crate::log::Sent;
use crate::response::{Response, response_bytes};
use crate::sending::send;
use crate::wire_fault::WireFault;
use http::StatusCode;
use reg_print::answer::Answer;
use std::alloc::Global;
use std::io::Write;

/// The answer where the store or memory failed, which takes no memory.
const STORAGE: &[u8] =
    b"HTTP/1.1 503 Service Unavailable\r\nContent-Type: application/json\r\nContent-Length: 19\r\nConnection: close\r\n\r\n{\"error\":\"storage\"}";

/// How many bytes its body has.
const STORAGE_BODY: usize = 19;

/// Writes an answer, by one write where it is taken whole; gives what is told of it. `Write(n)` where
/// exactly its first n bytes went out, and `Memory` where there was none to make it; there always
/// is for `Answer::Storage`.
pub(crate) fn send_response<W: Write>(
    alloc: Global,
    writer: &mut W,
    response: Response,
) -> Result<Sent, WireFault>
    ensures ok { IfOk result (λ sent. (sent ≡ sent_as response)
        × Appends (W.contents writer.old) (W.contents writer.new) (response_text response)) }
    ensures err { IfErr result (λ fault. IsUnsent fault response (W.contents writer.old)
        (W.contents writer.new)) }
{
    let made = response_bytes(alloc, &response);
    let is_storage = is_storage(&response);
    drop(response);
    match made {
        Ok((sent, bytes)) => match send(writer, bytes.as_slice()) {
            Ok(()) => Ok(sent),
            Err(n) => Err(WireFault::Write(n)),
        },
        Err(_) if is_storage => send_storage(writer),
        Err(_) => Err(WireFault::Memory),
    }
}

fn is_storage(response: &Response) -> bool
    ensures yes { result ≡ true → response.now ≡ storage }
    ensures no { result ≡ false → response.now ≢ storage }
{
    matches!(response, Response::Answer(Answer::Storage))
}

fn send_storage<W: Write>(writer: &mut W) -> Result<Sent, WireFault>
    ensures ok { IfOk result (λ sent. (sent ≡ sent_as storage)
        × Appends (W.contents writer.old) (W.contents writer.new) (response_text storage)) }
    ensures err { IfErr result (λ fault. IsUnsent fault storage (W.contents writer.old)
        (W.contents writer.new)) }
{
    match send(writer, STORAGE) {
        Ok(()) => Ok(Sent {
            status: StatusCode::SERVICE_UNAVAILABLE,
            body: STORAGE_BODY,
        }),
        Err(n) => Err(WireFault::Write(n)),
    }
}
