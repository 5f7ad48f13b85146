//! A reader and a writer that give and take little, and fail.
use std::io;
use std::io::{Read, Write};

/// Gives these bytes, one a call, and then ends, or fails; or it gives the first of them for ever. It counts
/// the calls.
#[derive(Drop)]
pub struct GivesOne<'a> {
    pub bytes: &'a [u8],
    pub fails: bool,
    pub repeats: bool,
    pub reads: usize,
}

impl Read for GivesOne<'_> {
    fn read(&mut self, buf: &mut [u8]) -> io::Result<usize> {
        self.reads = self.reads.wrapping_add(1);
        if self.bytes.is_empty() || buf.is_empty() {
            if self.fails {
                return Err(io::ErrorKind::Other.into());
            }
            return Ok(0);
        }
        buf[0] = self.bytes[0];
        if !self.repeats {
            self.bytes = &self.bytes[1..];
        }
        Ok(1)
    }
}

/// Takes all that it has room for, at most so many bytes a call, and fails when it has no more
/// room. It counts the calls.
#[derive(Drop)]
pub struct FailsAfter {
    pub taken: Vec<u8>,
    pub room: usize,
    pub most: usize,
    pub writes: usize,
}

impl Write for FailsAfter {
    fn write(&mut self, buf: &[u8]) -> io::Result<usize> {
        self.writes = self.writes.wrapping_add(1);
        let count = buf.len().min(self.room).min(self.most);
        if count == 0 {
            return Err(io::ErrorKind::Other.into());
        }
        self.taken.extend_from_slice(&buf[..count])?;
        self.room -= count;
        Ok(count)
    }

    fn flush(&mut self) -> io::Result<()> {
        Ok(())
    }
}
