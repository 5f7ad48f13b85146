//! Reads the body of a request.
ghost use Rattle.std.specs.Prelude.{◌≤◌, ◌<◌, OnOk, IfErr, length};
ghost use Rattle.reg_head.specs.Pieces.{Grows, LacksBytes};
ghost use Rattle.reg_head.specs.Watched.{IsWatched};

use crate::malformed::Malformed;
use crate::unread::Unread;
use crate::watch::Watch;
use std::io::Read;

/// How many bytes of a body are read at once.
const PIECE_BYTES: usize = 4_096;

/// Reads until there are so many bytes.
pub(crate) fn read_up_to<R: Read>(
    reader: &mut R,
    bytes: &mut Vec<u8>,
    end: usize,
    watch: &mut Watch,
) -> Result<(), Unread>
    ensures ok { OnOk result (Grows (R.remaining reader.old) (R.remaining reader.new) bytes.old.items
        end bytes.new.items × (end ≤ length bytes.new.items)) }
    ensures err { IfErr result (λ why. LacksBytes (R.remaining reader.old) (R.remaining reader.new)
        bytes.old.items end why) }
    ensures watched { IsWatched watch.old watch.new result }
{
    let mut piece = [0u8; PIECE_BYTES];
    while bytes.len() < end {
        let room = (end - bytes.len()).min(PIECE_BYTES);
        let count = watch.read(reader, &mut piece[..room])?;
        if count == 0 {
            return Err(Unread::Refused(Malformed::Short));
        }
        bytes.extend_from_slice(&piece[..count])?;
    }
    Ok(())
}
