//! Writes bytes whole, and counts those that went out before a fault.
ghost use Rattle.std.specs.Prelude.{◌<◌, OnOk, IfErr, take, length};
ghost use Rattle.std.specs.Io.KnownBytes.{Appends};

use std::io::Write;

/// Writes all the bytes; a fault says how many went out.
pub fn send<W: Write>(writer: &mut W, bytes: &[u8]) -> Result<(), usize>
    ensures ok { OnOk result (Appends (W.contents writer.old) (W.contents writer.new) bytes.now) }
    ensures err { IfErr result
        (λ n. (n < length bytes.now)
        × Appends (W.contents writer.old) (W.contents writer.new) (take n bytes.now)) }
{
    let mut at = 0;
    while at < bytes.len() {
        match writer.write(&bytes[at..]) {
            Ok(0) | Err(_) => return Err(at),
            Ok(n) => at += n,
        }
    }
    Ok(())
}
