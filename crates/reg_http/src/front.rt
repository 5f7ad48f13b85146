//! What may answer a request before the office is asked.
use http::StatusCode;
use std::alloc::{AllocError, Global};
use std::io::Read;

/// The most bytes of a portion in which content is read and sent.
pub const PORTION_BYTES: usize = 16_384;

/// What stands in front of an office and answers requests that are not the office's.
pub trait Front {
    /// What is read while it is sent.
    type Content: Read + Drop;

    /// The answer to these bytes, unless the office is to answer them, as it does where they are no whole
    /// request (RFC 9112). It is asked once, when the turn of the connection comes. Only want of memory is
    /// an error; the connection is then answered `503 {"error":"storage"}`.
    fn answer(
        &mut self,
        alloc: Global,
        request: &[u8],
    ) -> Result<Option<FrontAnswer<Self::Content>>, AllocError>;
}

/// An answer that is not the office's.
#[derive(Drop)]
pub struct FrontAnswer<C> {
    /// The bytes that are sent first: the status line, the fields and the empty line, and the body where
    /// there is no content.
    pub head: Vec<u8>,
    /// Its status, for the log and for what follows a refusal.
    pub status: StatusCode,
    /// How many bytes its body has, for the log.
    pub length: usize,
    /// The method of the request, for the log.
    pub method: Vec<u8>,
    /// What the log may show of the path; `-` is written where it may show nothing.
    pub path: Option<Vec<u8>>,
    /// What is read, in portions of at most [`PORTION_BYTES`], and sent after the head as the peer takes
    /// it: exactly `length` bytes. Where it ends or fails before, the connection is dropped.
    pub content: Option<C>,
}

/// Nothing in front: the office answers all requests.
#[derive(Clone, Copy, Debug, Drop)]
pub struct NoFront;

impl Front for NoFront {
    type Content = &'static [u8];

    fn answer(
        &mut self,
        _alloc: Global,
        _request: &[u8],
    ) -> Result<Option<FrontAnswer<&'static [u8]>>, AllocError> {
        Ok(None)
    }
}
