//! Lines of a script as requests over HTTP, and answers over HTTP as a script has them.
use std::alloc::Global;
use std::str;
use std::test::Fail;

/// The moment at which a line of a script asks, in seconds since 1970-01-01T00:00:00Z, and the bytes of the request
/// that asks the same.
pub fn request_of(alloc: Global, line: &str) -> Result<(u64, Vec<u8>), Fail> {
    let (moment, rest) = line.split_once(' ').ok_or("a moment")?;
    let (token, rest) = rest.split_once(' ').ok_or("a token")?;
    let (method, rest) = rest.split_once(' ').ok_or("a method")?;
    let (path, body) = rest.split_once(' ').unwrap_or((rest, ""));
    let moment: u64 = moment.parse().ok().ok_or("a moment")?;
    let mut text = String::from_str(alloc, method)?;
    text.push(' ')?;
    text.push_str(path)?;
    text.push_str(" HTTP/1.1\r\nHost: x\r\nContent-Length: ")?;
    text.push_str(body.len().to_string(alloc)?.as_str())?;
    if token != "-" {
        text.push_str("\r\nAuthorization: Bearer ")?;
        text.push_str(token)?;
    }
    text.push_str("\r\n\r\n")?;
    // A TAB of a script is a line feed.
    text.push_str(body.replace(alloc, "\t", "\n")?.as_str())?;
    Ok((moment, text.into_bytes()))
}

/// An answer over HTTP as a script has it, without a line feed.
pub fn line_of(alloc: Global, answer: &[u8]) -> Result<String, Fail> {
    let (head, body) = str::from_utf8(answer)?
        .split_once("\r\n\r\n")
        .ok_or("a head")?;
    let status = head.strip_prefix("HTTP/1.1 ").ok_or("a first line")?;
    let (status, _) = status.split_once(' ').ok_or("a status")?;
    let body = body.replace(alloc, "\n", "\t")?;
    Ok(format!(in alloc; "{status} {body}")?)
}
