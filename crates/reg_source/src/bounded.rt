//! Readers that are read to their end, up to a limit.
ghost use Rattle.std.specs.Prelude.{◌≡◌, ◌≤◌, IfOk, length};
ghost use Rattle.reg_source.specs.Bounded.{AreAll, AreMore};

use crate::unpublished::{Unpublished, unread};
use std::alloc::Global;
use std::io::Read;

/// How many bytes are read at once.
const PIECE_BYTES: usize = 16_384;

/// Reads to the end, and gives the bytes. `Large` where they are more than so many, and `Read` where
/// they cannot be read.
pub fn read_up_to<R: Read>(
    alloc: Global,
    most: usize,
    reader: &mut R,
) -> Result<Vec<u8>, Unpublished>
    ensures all { IfOk result (λ bytes. AreAll (R.remaining reader.old) bytes.items) }
    ensures most { IfOk result (λ bytes. length bytes.items ≤ most) }
    ensures large { result ≡ Err Unpublished.Large → AreMore most (R.remaining reader.old) }
{
    let mut bytes = Vec::new(alloc);
    let mut piece = [0; PIECE_BYTES];
    for _ in 0..u64::MAX {
        let count = reader.read(&mut piece).map_err(unread)?;
        if count == 0 {
            return Ok(bytes);
        }
        bytes.extend_from_slice(&piece[..count])?;
        if bytes.len() > most {
            return Err(Unpublished::Large);
        }
    }
    Err(Unpublished::Read)
}
