//! What the bytes that have come of a request say of it.
use reg_head::reading::read_request;
use reg_head::unread::Unread;
use reg_head::watch::Watch;
use std::alloc::Global;
use std::io;
use std::io::{ErrorKind, Read};

/// What the bytes that have come say: what `read_request` makes of them.
#[derive(Clone, Copy, Debug, PartialEq, Eq)]
pub(crate) enum Completeness {
    /// They are a whole request.
    Whole,
    /// Something is wrong with them, whatever follows.
    Refused,
    /// They are not yet a whole request, and at most so many bytes are read next.
    Wants(usize),
    /// There was no memory to say it.
    Unknown,
}

// The bytes that have come. A read after them fails, and tells how many were to be read.
#[derive(Drop)]
struct Came<'a> {
    rest: &'a [u8],
    wanted: usize,
}

impl Read for Came<'_> {
    fn read(&mut self, buf: &mut [u8]) -> io::Result<usize> {
        if self.rest.is_empty() {
            self.wanted = buf.len();
            return Err(ErrorKind::WouldBlock.into());
        }
        self.rest.read(buf)
    }
}

/// What these bytes say of the request that they begin.
pub(crate) fn completeness_of(alloc: Global, bytes: &[u8]) -> Completeness {
    let mut came = Came {
        rest: bytes,
        wanted: 0,
    };
    let mut watch = Watch::new();
    match read_request(alloc, &mut came, &mut watch) {
        Ok(message) => {
            drop(message);
            Completeness::Whole
        }
        Err(Unread::Refused(_)) => Completeness::Refused,
        Err(Unread::Read) => Completeness::Wants(came.wanted),
        Err(Unread::Memory) => Completeness::Unknown,
    }
}
