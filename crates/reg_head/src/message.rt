//! A request as it came.
ghost use Rattle.std.specs.Prelude.{◌≡◌, length};
ghost use Rattle.std.specs.Option.{option_copied};
ghost use Rattle.reg_head.specs.Found.{token_at, IsWithinIf};
ghost use Rattle.reg_head.specs.Reading.{IsMessage, LiesInBytes, request_view};
ghost use Rattle.reg_head.specs.Request.{Request};

use crate::fields::bearer;
use httparse::spans::Span;

/// A request as it came: its bytes, and where its parts are among them.
#[derive(Drop)]
pub struct Message {
    /// All that was read: the head, the body, and what came with its end.
    pub bytes: Vec<u8>,
    pub method: Span,
    /// The target as it stands.
    pub path: Span,
    /// The value of the one Authorization field (RFC 9110 section 11.6.2); none where there are
    /// more.
    pub authorization: Option<Span>,
    pub body: Span,
}

/// The parts of a request.
#[derive(Clone, Copy)]
pub struct Parts<'a> {
    pub method: &'a [u8],
    /// The target as it stands.
    pub path: &'a [u8],
    /// The bearer token (RFC 6750 section 2.1), if there is one.
    pub token: Option<&'a [u8]>,
    pub body: &'a [u8],
}

impl Message {
    /// The parts of the request.
    pub fn parts(&self) -> Parts<'_>
        requires { LiesInBytes self.now }
        ensures { (request : Request) → IsMessage self.now request → request_view result ≡ request }
    {
        let bytes = self.bytes.as_slice();
        Parts {
            method: self.method.of(bytes),
            path: self.path.of(bytes),
            token: token_in(bytes, self.authorization),
            body: self.body.of(bytes),
        }
    }
}

fn token_in(bytes: &[u8], authorization: Option<Span>) -> Option<&[u8]>
    requires { IsWithinIf (length bytes.now) authorization }
    ensures { option_copied result ≡ token_at bytes.now authorization }
{
    match authorization {
        None => None,
        Some(value) => bearer(value.of(bytes)),
    }
}
