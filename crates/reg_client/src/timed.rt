//! Connections that fail from an end on, and where what they give is no answer of an office.
use crate::answers::{MOST_HEAD_BYTES, may_begin};
use std::io;
use std::io::{ErrorKind, Read, Write};
use std::net::TcpStream;
use std::time::{Clock, Duration};

/// A connection that fails from an end on, by the monotonic clock, and as soon as no answer of an office
/// begins as it does.
#[derive(Drop)]
pub(crate) struct Timed<'a, C: Clock> {
    pub stream: &'a TcpStream,
    pub clock: &'a C,
    pub end: Duration,
    /// The first bytes that it gave: at most as many as the head of an answer has.
    pub head: Vec<u8>,
}

impl<C: Clock> Timed<'_, C> {
    fn left(&self) -> io::Result<Duration> {
        left(self.clock, self.end)
    }

    // Keeps these bytes if they are among the first, and fails where no answer of an office begins so.
    fn look_at(&mut self, piece: &[u8]) -> io::Result<()> {
        let room = MOST_HEAD_BYTES.saturating_sub(self.head.len());
        if room == 0 {
            return Ok(());
        }
        let first = room.min(piece.len());
        if self.head.extend_from_slice(&piece[..first]).is_err() {
            return Err(ErrorKind::OutOfMemory.into());
        }
        if may_begin(self.head.as_slice()) {
            Ok(())
        } else {
            Err(ErrorKind::InvalidData.into())
        }
    }
}

/// How long there is until an end.
pub(crate) fn left<C: Clock>(clock: &C, end: Duration) -> io::Result<Duration> {
    match end.checked_sub(clock.monotonic()?) {
        Some(left) if !left.is_zero() => Ok(left),
        _ => Err(ErrorKind::TimedOut.into()),
    }
}

impl<C: Clock> Read for Timed<'_, C> {
    fn read(&mut self, buf: &mut [u8]) -> io::Result<usize> {
        self.stream.set_read_timeout(Some(self.left()?))?;
        let count = self.stream.read(buf)?;
        self.look_at(&buf[..count])?;
        Ok(count)
    }
}

impl<C: Clock> Write for Timed<'_, C> {
    fn write(&mut self, buf: &[u8]) -> io::Result<usize> {
        self.stream.set_write_timeout(Some(self.left()?))?;
        self.stream.write(buf)
    }

    fn flush(&mut self) -> io::Result<()> {
        Ok(())
    }
}
