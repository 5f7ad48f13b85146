//! The log of the connections that are served, in lines.
ghost use Rattle.std.specs.Prelude.{◌<◌};

use http::StatusCode;
use jiff::Timestamp;
use reg_http::log::{LineLog, LogLine};
use reg_keeper::keeper::Fault;
use reg_parse::shown::Shown;
use reg_wire::log::{Log, Sent};
use std::alloc::{AllocError, Global};
use std::io::Write;

/// What stands for a method and a path that could not be read.
const UNREAD: &[u8] = b"- -";

/// What stands for a path in front of the office of which nothing may be shown.
const UNSHOWN: &[u8] = b"-";

/// Tells of each connection by a line: the moment, the method, what may be shown of the path, the
/// status and how many bytes the body of the answer has; `dropped` in place of the last two where it
/// was not answered. After the size of an answer with status 503 comes why: `memory`, `store` or
/// `clock`.
/// That a line cannot be written, or that there is no memory for it, ends nothing.
#[derive(Drop)]
pub struct Lines<'a, E: Write> {
    alloc: Global,
    errors: &'a mut E,
    // What the connection that is being served asks, as it is written; empty where that is unknown or
    // was given.
    asked: Vec<u8>,
    // What failed while it was carried out.
    failed: Option<Fault>,
}

impl<'a, E: Write> Lines<'a, E> {
    /// A log with no line yet.
    pub fn new(alloc: Global, errors: &'a mut E) -> Self {
        Lines {
            alloc,
            errors,
            asked: Vec::new(alloc),
            failed: None,
        }
    }
}

impl<E: Write> Log for Lines<'_, E> {
    const IS_KEPT: bool = true;

    fn asked(&mut self, method: &[u8], path: Shown<'_>) {
        if write_asked(&mut self.asked, method, path.text()).is_err() {
            self.asked.clear();
        }
    }

    fn failed(&mut self, fault: Fault) {
        self.failed = Some(fault);
    }
}

impl<E: Write> LineLog for Lines<'_, E> {
    fn asked_in_front(&mut self, method: &[u8], path: Option<&[u8]>) {
        if write_asked(&mut self.asked, method, path.unwrap_or(UNSHOWN)).is_err() {
            self.asked.clear();
        }
    }

    fn line(&mut self, alloc: Global, moment: u64, sent: Option<Sent>) -> LogLine {
        LogLine {
            moment,
            asked: std::mem::replace(&mut self.asked, Vec::new(alloc)),
            failed: self.failed.take(),
            sent,
        }
    }

    fn told(&mut self, line: LogLine) {
        if let Ok(text) = line_of(self.alloc, &line) {
            let _ = self.errors.write_all(text.as_slice());
            let _ = self.errors.flush();
        }
    }
}

fn write_asked(asked: &mut Vec<u8>, method: &[u8], path: &[u8]) -> Result<(), AllocError> {
    asked.clear();
    write_escaped(asked, method)?;
    asked.push(b' ')?;
    write_escaped(asked, path)
}

// A space, a backslash and what is no printable ASCII is written as `\x` and two digits.
fn write_escaped(text: &mut Vec<u8>, bytes: &[u8]) -> Result<(), AllocError> {
    for byte in bytes {
        match byte {
            b'\\' => write_code(text, *byte)?,
            b'!'..=b'~' => text.push(*byte)?,
            _ => write_code(text, *byte)?,
        }
    }
    Ok(())
}

fn write_code(text: &mut Vec<u8>, byte: u8) -> Result<(), AllocError> {
    text.extend_from_slice(b"\\x")?;
    text.push(digit_of(byte / 16))?;
    text.push(digit_of(byte % 16))?;
    Ok(())
}

fn digit_of(value: u8) -> u8
    requires { value < 16 }
{
    if value < 10 {
        b'0' + value
    } else {
        b'a' + (value - 10)
    }
}

// The line of a connection.
fn line_of(alloc: Global, line: &LogLine) -> Result<Vec<u8>, AllocError> {
    let mut text = moment_text(alloc, line.moment)?.into_bytes();
    text.push(b' ')?;
    let asked = line.asked.as_slice();
    text.extend_from_slice(if asked.is_empty() { UNREAD } else { asked })?;
    let end = match &line.sent {
        Some(Sent { status, body }) => {
            let why = reason_of(status, line.failed);
            let status = status.as_str();
            format!(in alloc; " {status} {body}{why}\n")?
        }
        None => String::from_str(alloc, " dropped\n")?,
    };
    text.extend_from_slice(end.as_bytes())?;
    Ok(text)
}

// Why a request is answered with status 503, after a space; nothing of another answer.
fn reason_of(status: &StatusCode, failed: Option<Fault>) -> &'static str {
    match failed {
        Some(Fault::Memory) => " memory",
        Some(Fault::Store) => " store",
        None if *status == StatusCode::SERVICE_UNAVAILABLE => " clock",
        None => "",
    }
}

// The moment as `2026-11-26T08:00:00Z` (RFC 3339); `-` where the calendar has none.
fn moment_text(alloc: Global, moment: u64) -> Result<String, AllocError> {
    match instant_of(moment) {
        Some(instant) => format!(in alloc; "{instant}"),
        None => String::from_str(alloc, "-"),
    }
}

fn instant_of(moment: u64) -> Option<Timestamp> {
    Timestamp::from_second(i64::try_from(moment).ok()?).ok()
}
