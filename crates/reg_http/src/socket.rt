//! One connection: its socket, and what of its request and its answer is kept.
use crate::completeness::{Completeness, completeness_of};
use crate::front::PORTION_BYTES;
use crate::log::LogLine;
use mio::net::TcpStream;
use mio::{Interest, Registry, Token};
use std::alloc::{AllocError, Global};
use std::io;
use std::io::{ErrorKind, Read, Write};
use std::net::Shutdown;
use std::time::Duration;

// How often a socket is read or written before others are looked at.
const MOST_CALLS: u32 = 16;

// How many bytes are read at once.
const PIECE_BYTES: usize = 8_192;

// How many bytes of a request are read at first, as long as its head may be.
const FIRST_BYTES: usize = 8_192;

// How many bytes that a refused peer still sends are read.
const MOST_DROPPED_BYTES: usize = 131_072;

/// What became of reading or writing what a socket gives or takes now.
#[derive(Clone, Copy, Debug, PartialEq, Eq)]
pub(crate) enum Readiness {
    /// It gives or takes nothing more now.
    Blocked,
    /// It may give or take more.
    Busy,
    /// The request is settled, or the answer is taken whole.
    Done,
    /// It has ended or failed before.
    Broken,
}

/// Content that is sent after what is kept.
#[derive(Drop)]
pub(crate) struct LeftContent<C> {
    /// What is read.
    pub content: C,
    /// How many bytes of it are still to be read.
    pub left: usize,
    /// By when all is to be sent.
    pub last: Duration,
}

/// One connection.
#[derive(Drop)]
pub(crate) struct Socket<C> {
    stream: TcpStream,
    // What it is watched for, if it is.
    watched: Option<Interest>,
    /// What has come of its request, or what is kept of its answer.
    pub bytes: Vec<u8>,
    // How many of the bytes of the answer were sent.
    at: usize,
    // What they say of the request.
    completeness: Completeness,
    // How many bytes of it there are when that is looked at again.
    look_at: usize,
    /// Whether it can be read no more, though its end has not come.
    pub has_failed: bool,
    /// What is told of it once it has ended.
    pub line: Option<LogLine>,
    /// What is sent after the bytes.
    pub rest: Option<LeftContent<C>>,
    // How many bytes of the answer were sent in all.
    sent: usize,
    // How many bytes of a refused peer were dropped.
    dropped: usize,
}

impl<C: Read + Drop> Socket<C> {
    /// A connection of which nothing was read.
    pub fn new(alloc: Global, stream: TcpStream) -> Socket<C> {
        Socket {
            stream,
            watched: None,
            bytes: Vec::new(alloc),
            at: 0,
            completeness: Completeness::Wants(FIRST_BYTES),
            look_at: 0,
            has_failed: false,
            line: None,
            rest: None,
            sent: 0,
            dropped: 0,
        }
    }

    /// How many bytes of the answer are kept and not sent.
    pub fn unsent(&self) -> usize {
        self.left().len()
    }

    // What is kept of the answer and not sent.
    fn left(&self) -> &[u8] {
        &self.bytes[self.at.min(self.bytes.len())..]
    }

    /// How many bytes have come of the request.
    pub fn asked(&self) -> usize {
        self.bytes.len()
    }

    /// The same, of which this line is told once it has ended.
    pub fn with_line(self, line: LogLine) -> Socket<C> {
        let mut socket = self;
        socket.line = Some(line);
        socket
    }

    /// The line that is told of it now that it has ended. It is given once.
    pub fn take_line(&mut self) -> Option<LogLine> {
        self.line.take()
    }

    /// Has the socket watched for this; with `again`, what it is ready for is reported once more.
    pub fn watch(
        &mut self,
        registry: &Registry,
        token: usize,
        interest: Interest,
        again: bool,
    ) -> io::Result<()> {
        let watched = self.watched;
        if watched.is_none() {
            registry.register(&mut self.stream, Token(token), interest)?;
        } else if again || watched != Some(interest) {
            registry.reregister(&mut self.stream, Token(token), interest)?;
        }
        self.watched = Some(interest);
        Ok(())
    }

    /// Reads what has come of the request, and no more than that.
    pub fn take_in(&mut self, alloc: Global) -> Readiness {
        let mut piece = [0u8; PIECE_BYTES];
        for _ in 0..MOST_CALLS {
            let room = self.room().min(PIECE_BYTES);
            if room == 0 {
                return Readiness::Done;
            }
            match self.stream.read(&mut piece[..room]) {
                Ok(0) => return Readiness::Broken,
                Ok(count) => if self.keep(alloc, &piece[..count]).is_err() {
                    self.has_failed = true;
                    return Readiness::Broken;
                },
                Err(error) => return self.unread(&error),
            }
        }
        Readiness::Busy
    }

    fn unread(&mut self, error: &io::Error) -> Readiness {
        match error.kind() {
            ErrorKind::WouldBlock => Readiness::Blocked,
            ErrorKind::Interrupted => Readiness::Busy,
            _ => {
                self.has_failed = true;
                Readiness::Broken
            }
        }
    }

    // How many bytes more may be read of the request.
    fn room(&self) -> usize {
        match self.completeness {
            Completeness::Wants(count) => count.min(FIRST_BYTES),
            Completeness::Whole | Completeness::Refused | Completeness::Unknown => 0,
        }
    }

    // Keeps more bytes of the request. They are looked at once as many have come as are wanted, and each
    // time before it is known how many those are.
    fn keep(&mut self, alloc: Global, piece: &[u8]) -> Result<(), AllocError> {
        self.bytes.extend_from_slice(piece)?;
        let count = self.bytes.len();
        if count < self.look_at {
            self.completeness = Completeness::Wants(self.look_at - count);
            return Ok(());
        }
        self.completeness = completeness_of(alloc, self.bytes.as_slice());
        match self.completeness {
            Completeness::Wants(wanted) => {
                self.look_at = next_look(count, wanted);
                Ok(())
            }
            Completeness::Unknown => Err(AllocError),
            Completeness::Whole | Completeness::Refused => Ok(()),
        }
    }

    /// Keeps no more of what was read, and reads no more.
    pub fn forget(&mut self, alloc: Global) {
        self.bytes = Vec::new(alloc);
        self.has_failed = true;
    }

    /// Whether what was read is a whole request, or there was no memory to say so.
    pub fn may_be_whole(&self) -> bool {
        match self.completeness {
            Completeness::Whole | Completeness::Unknown => true,
            Completeness::Refused | Completeness::Wants(_) => false,
        }
    }

    /// Sends what the peer takes of the answer, and reads more of the content for it.
    pub fn put_out(&mut self) -> Readiness {
        for _ in 0..MOST_CALLS {
            if self.unsent() == 0 {
                if let Some(readiness) = self.refill() {
                    return readiness;
                }
            }
            let at = self.at.min(self.bytes.len());
            match self.stream.write(&self.bytes[at..]) {
                Ok(0) => return Readiness::Broken,
                Ok(count) => {
                    self.at = self.at.saturating_add(count);
                    self.sent = self.sent.saturating_add(count);
                }
                Err(error) => return unwritten(&error),
            }
        }
        Readiness::Busy
    }

    /// How many bytes of the answer were sent.
    pub fn sent(&self) -> usize {
        self.sent
    }

    /// Whether content is sent after what is kept.
    pub fn has_content(&self) -> bool {
        self.rest.is_some()
    }

    /// By when all of the answer is to be sent, where it has content.
    pub fn last(&self) -> Option<Duration> {
        match &self.rest {
            Some(rest) => Some(rest.last),
            None => None,
        }
    }

    // Reads the next portion of the content, and tells where that ends the sending.
    fn refill(&mut self) -> Option<Readiness> {
        self.bytes.clear();
        self.at = 0;
        let Some(rest) = &mut self.rest else {
            return Some(Readiness::Done);
        };
        if rest.left == 0 {
            return Some(Readiness::Done);
        }
        let mut portion = [0u8; PORTION_BYTES];
        let room = rest.left.min(PORTION_BYTES);
        match rest.content.read(&mut portion[..room]) {
            Ok(count) if count > 0 => {
                rest.left = rest.left.saturating_sub(count);
                match self.bytes.extend_from_slice(&portion[..count]) {
                    Ok(()) => None,
                    Err(_) => Some(Readiness::Broken),
                }
            }
            _ => Some(Readiness::Broken),
        }
    }

    /// Gives back the memory of what was sent, where that is as much as what was not.
    pub fn shrink(&mut self, alloc: Global) {
        if self.at >= self.bytes.len() / 2 {
            if let Ok(bytes) = Vec::from_slice(alloc, self.left()) {
                self.bytes = bytes;
                self.at = 0;
            }
        }
    }

    /// Tells the peer that nothing more is sent.
    pub fn close_writing(&self) -> bool {
        self.stream.shutdown(Shutdown::Write).is_ok()
    }

    /// Reads what a refused peer still sends, and drops it.
    pub fn drain(&mut self) -> Readiness {
        let mut piece = [0u8; PIECE_BYTES];
        for _ in 0..MOST_CALLS {
            if self.dropped >= MOST_DROPPED_BYTES {
                return Readiness::Done;
            }
            match self.stream.read(&mut piece) {
                Ok(0) => return Readiness::Done,
                Ok(count) => self.dropped = self.dropped.saturating_add(count),
                Err(error) => return unwritten(&error),
            }
        }
        Readiness::Busy
    }
}

impl<C: Read + Drop> Write for Socket<C> {
    // Sends what the peer takes at once, and keeps the rest.
    fn write(&mut self, buf: &[u8]) -> io::Result<usize> {
        let mut taken = 0;
        if self.bytes.is_empty() {
            match self.stream.write(buf) {
                Ok(count) => taken = count.min(buf.len()),
                Err(error) => if unwritten(&error) == Readiness::Broken {
                    return Err(error);
                },
            }
        }
        match self.bytes.extend_from_slice(&buf[taken..]) {
            Ok(()) => Ok(buf.len()),
            Err(_) => Err(ErrorKind::OutOfMemory.into()),
        }
    }

    fn flush(&mut self) -> io::Result<()> {
        Ok(())
    }
}

// How many bytes of a request there are when they are looked at again, where so many have come and so many
// are wanted: as many as that, or any more where the head has not come.
fn next_look(count: usize, wanted: usize) -> usize {
    let next = count.saturating_add(wanted);
    if next == FIRST_BYTES { 0 } else { next }
}

fn unwritten(error: &io::Error) -> Readiness {
    match error.kind() {
        ErrorKind::WouldBlock => Readiness::Blocked,
        ErrorKind::Interrupted => Readiness::Busy,
        _ => Readiness::Broken,
    }
}
