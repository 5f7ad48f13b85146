//! Streams that may end at a terminal.
ghost use Rattle.std.specs.Prelude.{◌≡◌, IfOk, map};
ghost use Rattle.std.specs.Io.{WritesAtMost};
ghost use Rattle.std.specs.Io.KnownBytes.{WriteAppends};
ghost use Rattle.reg_program.specs.Terminal.{shown};

use std::alloc::{AllocError, Global};
use std::io;
use std::io::Write;

/// How many bytes go to a terminal at once.
const PIECE_BYTES: usize = 4096;

/// Passes bytes on. A terminal is sent only what it shows: it might obey other bytes, and some come from
/// other people's offices and files.
#[derive(Drop)]
pub struct Outlet<W> {
    /// What makes its texts.
    pub alloc: Global,
    /// Where the bytes go.
    pub writer: W,
    /// Whether that is a terminal.
    pub is_terminal: bool,
}

impl<W: Write> Write for Outlet<W> {
    fn write(&mut self, buf: &[u8]) -> io::Result<usize> {
        if !self.is_terminal {
            return self.writer.write(buf);
        }
        let count = buf.len().min(PIECE_BYTES);
        write_shown(self.alloc, &mut self.writer, &buf[..count])
    }

    fn flush(&mut self) -> io::Result<()> {
        self.writer.flush()
    }
}

// Writes bytes as a terminal shows them.
fn write_shown<W: Write>(alloc: Global, writer: &mut W, bytes: &[u8]) -> io::Result<usize>
    ensures bound { WritesAtMost result bytes.now }
    ensures shown { WriteAppends (W.contents writer.old) (W.contents writer.new) result
        (map shown bytes.now) }
{
    let text = text_of(alloc, bytes)?;
    writer.write(text.as_slice())
}

// Bytes as a terminal shows them.
fn text_of(alloc: Global, bytes: &[u8]) -> Result<Vec<u8>, AllocError>
    ensures { IfOk result (λ text. text.items ≡ map shown bytes.now) }
{
    bytes.iter().map(|byte| shown(*byte)).collect(alloc)
}

// A byte that any terminal shows, a line feed and a TAB as they are, and a question mark for any other.
fn shown(byte: u8) -> u8
    ensures { result ≡ shown byte }
{
    match byte {
        b'\n' | b'\t' | b' '..=b'~' => byte,
        _ => b'?',
    }
}
