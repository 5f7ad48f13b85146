//! The heads of answers that have a file.
ghost use Rattle.std.specs.Prelude.{◌≡◌, IfOk, string_bytes};
ghost use Rattle.reg_folder.specs.Head.{head_text};

use crate::media::media_of;
use std::alloc::{AllocError, Global};

/// What a page of a site may load, and whom it may ask: its own address alone.
const POLICY: &str =
    "default-src 'none'; script-src 'self'; style-src 'self'; img-src 'self'; connect-src 'self'; base-uri 'none'; form-action 'none'; frame-ancestors 'none'";

/// The head of an answer (RFC 9112 section 4) that has the file at a path, of so many bytes.
pub(crate) fn head_of(alloc: Global, path: &str, length: usize) -> Result<String, AllocError>
    ensures { IfOk result (λ head. string_bytes head ≡ head_text path.now length) }
{
    let media = media_of(path);
    format!(in alloc;
        "HTTP/1.1 200 OK\r\nContent-Type: {media}\r\nContent-Length: {length}\r\nCache-Control: no-cache\r\nReferrer-Policy: no-referrer\r\nX-Content-Type-Options: nosniff\r\nContent-Security-Policy: {POLICY}\r\nConnection: close\r\n\r\n"
    )
}
