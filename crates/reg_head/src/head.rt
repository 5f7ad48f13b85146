//! Reads the head of a request.
ghost use Rattle.std.specs.Prelude.{◌≡◌, ◌≤◌, IfOk, IfErr, length, vec_len};
ghost use Rattle.httparse.specs.Grammar.{RequestHead};
ghost use Rattle.std.specs.Io.KnownBytes.{Consumes};
ghost use Rattle.reg_head.specs.Head.{most_bytes, most_fields};
ghost use Rattle.reg_head.specs.Looks.{IsHeadAt, IsWhole, LookIsRefused, IsPartial, IsHeadless};
ghost use Rattle.reg_head.specs.Watched.{IsWatched};

use crate::malformed::Malformed;
use crate::unread::Unread;
use crate::watch::Watch;
use httparse::Status;
use httparse::spans::{HeaderSpan, RequestSpans, parse_request};
use std::io::Read;

/// The most bytes of a head, from the first byte read to its empty line.
pub(crate) const MOST_BYTES: usize = 8_192;

/// The most fields of a head.
pub(crate) const MOST_FIELDS: usize = 32;

/// What stands at the front of the bytes that have come.
#[derive(Clone, Copy)]
enum Look {
    /// A head, at these places.
    Whole(RequestSpans),
    /// No head, whatever comes.
    Refused,
    /// No head yet.
    Partial,
}

#[tactic(auto, using(crate::proofs::Limit::past_limit))]
fn look_at(buf: &[u8], headers: &mut [HeaderSpan]) -> Look
    requires room { length headers.old ≡ most_fields }
    requires short { length buf.now ≤ most_bytes }
    ensures whole { IsWhole buf.now headers.new result }
    ensures refused { LookIsRefused buf.now result }
    ensures partial { IsPartial buf.now result }
{
    match parse_request(buf, headers) {
        Ok(Status::Complete(spans)) => Look::Whole(spans),
        Ok(Status::Partial) => if buf.len() == MOST_BYTES {
            Look::Refused
        } else {
            Look::Partial
        },
        Err(_) => Look::Refused,
    }
}

/// Reads until the head of a request has come, or cannot come any more.
pub(crate) fn read_head<R: Read>(
    reader: &mut R,
    bytes: &mut Vec<u8>,
    headers: &mut [HeaderSpan],
    watch: &mut Watch,
) -> Result<RequestSpans, Unread>
    requires room { length headers.old ≡ most_fields }
    requires empty { vec_len bytes.old ≡ 0 }
    ensures read { IfOk result
        (λ _. Consumes (R.remaining reader.old) (R.remaining reader.new) bytes.new.items) }
    ensures found { IfOk result
        (λ spans. (head : RequestHead) × IsHeadAt bytes.new.items headers.new spans head) }
    ensures short { IfOk result (λ _. length bytes.new.items ≤ most_bytes) }
    ensures err { IfErr result
        (λ why. IsHeadless (R.remaining reader.old) (R.remaining reader.new) why) }
    ensures watched { IsWatched watch.old watch.new result }
{
    let mut piece = [0u8; MOST_BYTES];
    loop {
        match look_at(bytes.as_slice(), headers) {
            Look::Whole(spans) => return Ok(spans),
            Look::Refused => return Err(Unread::Refused(Malformed::Head)),
            Look::Partial => {}
        }
        let room = MOST_BYTES - bytes.len();
        let count = watch.read(reader, &mut piece[..room])?;
        if count == 0 {
            return Err(Unread::Refused(Malformed::Head));
        }
        bytes.extend_from_slice(&piece[..count])?;
    }
}
