//! Whether a read failed.
ghost use Rattle.std.specs.Prelude.{◌≡◌, false, IfErr};
ghost use Rattle.std.specs.Io.{ReadsAtMost};
ghost use Rattle.std.specs.Io.KnownBytes.{ReadConsumes};
ghost use Rattle.reg_head.specs.Watched.{IsWatched, has_failed};

use crate::unread::Unread;
use std::io::Read;

/// Whether a read failed. A reader may fail at its end too, as far as the contract of `Read` says;
/// this tells such a failure from the end.
#[derive(Clone, Copy, Debug)]
pub struct Watch {
    failed: bool,
}

impl Watch {
    /// No read failed yet.
    pub fn new() -> Watch
        ensures { has_failed result ≡ false }
    {
        Watch { failed: false }
    }

    /// Whether a read failed.
    pub fn has_failed(&self) -> bool
        ensures { result ≡ has_failed self.now }
    {
        self.failed
    }

    /// One read.
    pub(crate) fn read<R: Read>(&mut self, reader: &mut R, buf: &mut [u8]) -> Result<usize, Unread>
        ensures bound { ReadsAtMost result buf.new }
        ensures bytes { ReadConsumes (R.remaining reader.old) (R.remaining reader.new) result
            buf.new }
        ensures watched { IsWatched self.old self.new result }
        ensures read { IfErr result (λ why. why ≡ Unread.Read) }
    {
        match reader.read(buf) {
            Ok(count) => Ok(count),
            Err(_) => {
                self.failed = true;
                Err(Unread::Read)
            }
        }
    }
}
