//! Reads files and standard input whole, and the tokens that words of a command line stand for.
ghost use Rattle.std.specs.Prelude.{◌≡◌, ◌<◌, ◌≤◌, ◌^◌, ◌⊎◌, length, position, IfErr, IfOk, IfSome, option_map};
ghost use Rattle.std.specs.Io.BufRead.{strip_last};
ghost use Rattle.std.specs.String.{string_bytes};
ghost use Rattle.reg_source.specs.Bounded.{AreMore};
ghost use Rattle.reg_program.specs.Inputs.{AreKnown, HasBytes, HasMore, IsTokenOf, body_in, is_line_feed, line_in, token_in};

use crate::faults::JobFailure;
use reg_source::regular::{is_longer, open_regular};
use std::alloc::Global;
use std::io;
use std::io::Read;
use std::rt::Files;

/// How many bytes a range file, a body and a token's file have at most.
pub const MOST_BYTES: usize = 65_536;

/// How many bytes a register has at most.
pub const MOST_REGISTER_BYTES: usize = 268_435_456;

/// How many bytes a file of notes has at most.
pub const MOST_NOTES_BYTES: usize = 1_048_576;

/// The bytes of the file at a path. `Large` where it has more than 65,536, and `Read` where it
/// cannot be read.
pub fn bytes_of<H: Files>(rt: &H, alloc: Global, path: &str) -> Result<Vec<u8>, JobFailure>
    ensures all { IfOk result (λ bytes. HasBytes H.File.remaining bytes.items) }
    ensures most { IfOk result (λ bytes. length bytes.items ≤ 65536) }
    ensures large { result ≡ Err JobFailure.Large → HasMore H.File.remaining 65536 }
{
    opened_up_to(rt, alloc, path, MOST_BYTES)
}

/// The bytes of the register at a path. `Large` where it has more than 268,435,456, and `Read` where
/// it cannot be read.
pub fn register_of<H: Files>(rt: &H, alloc: Global, path: &str) -> Result<Vec<u8>, JobFailure>
    ensures all { IfOk result (λ bytes. HasBytes H.File.remaining bytes.items) }
    ensures most { IfOk result (λ bytes. length bytes.items ≤ 268435456) }
    ensures large { result ≡ Err JobFailure.Large → HasMore H.File.remaining 268435456 }
{
    opened_up_to(rt, alloc, path, MOST_REGISTER_BYTES)
}

/// Refuses a register as `Large` before it is read, where the system says that it has more than 268,435,456
/// bytes.
pub fn refuse_long<H: Files>(rt: &H, path: &str) -> Result<(), JobFailure>
    ensures { IfErr result (λ why. why ≡ JobFailure.Large) }
{
    if is_longer(rt, path, MOST_REGISTER_BYTES) {
        Err(JobFailure::Large)
    } else {
        Ok(())
    }
}

/// The bytes of the file of notes at a path. `Large` where it has more than 1,048,576, and `Read` where
/// it cannot be read.
pub fn notes_of<H: Files>(rt: &H, alloc: Global, path: &str) -> Result<Vec<u8>, JobFailure>
    ensures all { IfOk result (λ bytes. HasBytes H.File.remaining bytes.items) }
    ensures most { IfOk result (λ bytes. length bytes.items ≤ 1048576) }
    ensures large { result ≡ Err JobFailure.Large → HasMore H.File.remaining 1048576 }
{
    opened_up_to(rt, alloc, path, MOST_NOTES_BYTES)
}

// The bytes of the file at a path. `Large` where it has more than so many.
fn opened_up_to<H: Files>(
    rt: &H,
    alloc: Global,
    path: &str,
    most: usize,
) -> Result<Vec<u8>, JobFailure>
    requires { most < 2 ^ 32 }
    ensures all { IfOk result (λ bytes. HasBytes H.File.remaining bytes.items) }
    ensures most { IfOk result (λ bytes. length bytes.items ≤ most) }
    ensures large { result ≡ Err JobFailure.Large → HasMore H.File.remaining most }
{
    let mut file = open_regular(rt, path).map_err(failure)?;
    let read = up_to(alloc, &mut file, most);
    drop(file);
    read
}

/// All the bytes of a reader. `Large` where it has more than 65,536, and `Read` where it cannot be
/// read.
pub fn all_of<R: Read>(alloc: Global, reader: &mut R) -> Result<Vec<u8>, JobFailure>
    ensures all { IfOk result (λ bytes. AreKnown (R.remaining reader.old) bytes.items) }
    ensures most { IfOk result (λ bytes. length bytes.items ≤ 65536) }
    ensures large { result ≡ Err JobFailure.Large → AreMore 65536 (R.remaining reader.old) }
{
    up_to(alloc, reader, MOST_BYTES)
}

// All the bytes of a reader. `Large` where it has more than so many.
fn up_to<R: Read>(alloc: Global, reader: &mut R, most: usize) -> Result<Vec<u8>, JobFailure>
    requires { most < 2 ^ 32 }
    ensures all { IfOk result (λ bytes. AreKnown (R.remaining reader.old) bytes.items) }
    ensures most { IfOk result (λ bytes. length bytes.items ≤ most) }
    ensures large { result ≡ Err JobFailure.Large → AreMore most (R.remaining reader.old) }
{
    let mut bytes = Vec::new(alloc);
    let mut limited = reader.take(most as u64 + 1);
    match limited.read_to_end(&mut bytes) {
        Ok(_) if bytes.len() <= most => Ok(bytes),
        Ok(_) => Err(JobFailure::Large),
        Err(error) => Err(failure(error)),
    }
}

/// The body that a word says: its bytes, or what stands on standard input for `-`; without a word,
/// nothing. Else as `all_of`.
pub fn body_of<R: Read>(
    alloc: Global,
    word: &Option<String>,
    input: &mut R,
) -> Result<Vec<u8>, JobFailure>
    ensures { IfOk result (λ body. AreKnown
        (body_in (option_map string_bytes word.now) (R.remaining input.old)) body.items) }
{
    match word {
        Some(word) if word.as_str() == "-" => all_of(alloc, input),
        Some(word) => all_of(alloc, &mut word.as_bytes()),
        None => Ok(Vec::new(alloc)),
    }
}

/// The token that a word of a command line stands for: the word itself or, where it begins with
/// `@`, the first line of the file at the path after that, without its line end. Else as `bytes_of`.
pub fn token_of<H: Files>(rt: &H, alloc: Global, word: &str) -> Result<Vec<u8>, JobFailure>
    ensures { IfOk result (λ token. AreKnown (token_in word.now) token.items) }
{
    match word.strip_prefix('@') {
        Some(path) => {
            let bytes = bytes_of(rt, alloc, path)?;
            Ok(first_line(bytes.as_slice()).to_vec(alloc)?)
        }
        None => Ok(word.as_bytes().to_vec(alloc)?),
    }
}

/// The token that a word stands for, if there is one.
pub fn optional_token<H: Files>(
    rt: &H,
    alloc: Global,
    word: &Option<String>,
) -> Result<Option<Vec<u8>>, JobFailure>
    ensures { IfOk result (λ token. IsTokenOf (option_map string_bytes word.now)
        (option_map (λ t. t.items) token)) }
{
    match word {
        Some(word) => Ok(Some(token_of(rt, alloc, word.as_str())?)),
        None => Ok(None),
    }
}

// The first line of a text, without its line end: a line feed, or a carriage return and one.
fn first_line(text: &[u8]) -> &[u8]
    ensures { result.now ≡ line_in text.now }
{
    match line_feed(text) {
        Some(at) => without_return(&text[..at]),
        None => without_return(text),
    }
}

fn line_feed(text: &[u8]) -> Option<usize>
    ensures value { result ≡ position is_line_feed text.now }
    ensures within { IfSome result (λ at. at < length text.now) }
{
    text.iter().position(|byte| *byte == b'\n')
}

fn without_return(line: &[u8]) -> &[u8]
    ensures { result.now ≡ strip_last 13 line.now }
{
    match line {
        [rest @ .., b'\r'] => rest,
        _ => line,
    }
}

fn failure(error: io::Error) -> JobFailure
    ensures { (result ≡ JobFailure.Memory) ⊎ (result ≡ JobFailure.Read) }
{
    match error.kind() {
        io::ErrorKind::OutOfMemory => JobFailure::Memory,
        _ => JobFailure::Read,
    }
}
