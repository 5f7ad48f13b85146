//! Reads a request.
ghost use Rattle.std.specs.Prelude.{Ok, IfOk, IfErr};
ghost use Rattle.reg_head.specs.Request.{Request};
ghost use Rattle.reg_head.specs.Reading.{IsMessage, IsAsked, IsUnread};
ghost use Rattle.reg_head.specs.Watched.{IsWatched};

use crate::body::read_up_to;
use crate::fields::{announced, authorization};
use crate::head::{MOST_FIELDS, read_head};
use crate::message::Message;
use crate::unread::Unread;
use crate::watch::Watch;
use httparse::spans::{EMPTY_HEADER_SPAN, Span};
use std::alloc::Global;
use std::io::Read;

/// Reads one request: its head (RFC 9112 sections 2 to 5), and the body whose length the head
/// announces. No more bytes are read than 8,192, or than the head and the body.
///
/// `Refused` where the bytes are no request: what is wrong with them first. `Read` where a read
/// failed before the request was whole, where it could still become so; `watch` tells that a read
/// failed. `Memory` where there was none to hold it.
pub fn read_request<R: Read>(
    alloc: Global,
    reader: &mut R,
    watch: &mut Watch,
) -> Result<Message, Unread>
    ensures ok { IfOk result (λ message. (request : Request) × IsMessage message request
        × IsAsked (R.remaining reader.old) (R.remaining reader.new) (Ok request)) }
    ensures err { IfErr result
        (λ why. IsUnread (R.remaining reader.old) (R.remaining reader.new) why) }
    ensures watched { IsWatched watch.old watch.new result }
{
    let mut bytes = Vec::new(alloc);
    let mut headers = [EMPTY_HEADER_SPAN; MOST_FIELDS];
    let spans = read_head(reader, &mut bytes, &mut headers, watch)?;
    let fields = &headers[..spans.headers];
    let authorization = authorization(bytes.as_slice(), fields);
    let end = spans.len + announced(bytes.as_slice(), fields)?;
    read_up_to(reader, &mut bytes, end, watch)?;
    Ok(Message {
        bytes,
        method: spans.method,
        path: spans.path,
        authorization,
        body: Span {
            start: spans.len,
            end,
        },
    })
}
