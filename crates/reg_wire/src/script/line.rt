//! A line of a script: what it asks, and when.
ghost use Rattle.std.specs.Prelude.{◌≡◌, ◌<◌, length, position, option_map, IfSome, true};
ghost use Rattle.std.specs.Option.{option_copied};
ghost use Rattle.std.specs.List.{list_all};
ghost use Rattle.std.specs.Char.{is_ascii_digit};
ghost use Rattle.std.specs.Str.{IsUtf8};
ghost use Rattle.reg_wire.specs.Script.Line.{is_space, first_field as field, path_and_body as path, is_decimal as decimal, moment_of as moment, token_of as token, line_of, fields_of, call_of};

use std::str;

/// The most bytes of a line, its line feed aside.
pub(crate) const MOST_BYTES: usize = 65_536;

/// What a line of a script asks: `moment token METHOD path body`, with one space between.
#[derive(Clone, Copy)]
pub(crate) struct Line<'a> {
    /// Seconds since 1970-01-01T00:00:00Z.
    pub moment: u64,
    /// The bearer token; none where the line has `-`.
    pub token: Option<&'a [u8]>,
    pub method: &'a [u8],
    pub path: &'a [u8],
    /// The body, with a TAB for each line feed of it; empty where the line has none.
    pub body: &'a [u8],
}

/// What these bytes ask, which stood before a line feed. None where they are more than
/// `MOST_BYTES`, where one of the first four fields is missing or empty, and where the moment is no
/// u64 in decimal, without leading zeros.
#[tactic(auto, unfolding(crate::specs::Script::Line::line_of))]
pub(crate) fn read_line(bytes: &[u8]) -> Option<Line<'_>>
    ensures { option_map call_of result ≡ line_of bytes.now }
{
    if bytes.len() > MOST_BYTES {
        return None;
    }
    fields(bytes)
}

fn fields(bytes: &[u8]) -> Option<Line<'_>>
    ensures { option_map call_of result ≡ fields_of bytes.now }
{
    let (seconds, after_moment) = first_field(bytes)?;
    let moment = moment_of(seconds)?;
    let (word, after_token) = first_field(after_moment)?;
    let (method, after_method) = first_field(after_token)?;
    let (path, body) = path_and_body(after_method)?;
    Some(Line {
        moment,
        token: token_of(word),
        method,
        path,
        body,
    })
}

/// A field that is not empty, and what follows the space after it; none where there is no space.
fn first_field(line: &[u8]) -> Option<(&[u8], &[u8])>
    ensures { option_map (λ p. (p.0.now, p.1.now)) result ≡ field line.now }
{
    match first_space(line) {
        None | Some(0) => None,
        Some(at) => Some((&line[..at], &line[at + 1..])),
    }
}

/// The path, and the body after it, which may be missing with its space; none where the path is
/// empty.
fn path_and_body(line: &[u8]) -> Option<(&[u8], &[u8])>
    ensures { option_map (λ p. (p.0.now, p.1.now)) result ≡ path line.now }
{
    match first_space(line) {
        None if line.is_empty() => None,
        None => Some((line, &[])),
        Some(0) => None,
        Some(at) => Some((&line[..at], &line[at + 1..])),
    }
}

fn first_space(line: &[u8]) -> Option<usize>
    ensures value { result ≡ position is_space line.now }
    ensures within { IfSome result (λ at. at < length line.now) }
{
    line.iter().position(|b| *b == b' ')
}

/// The seconds of a moment in decimal, without leading zeros; none where they are not below 2^64.
fn moment_of(text: &[u8]) -> Option<u64>
    ensures { result ≡ moment text.now }
{
    if !is_decimal(text) {
        return None;
    }
    value_of(text)
}

fn value_of(digits: &[u8]) -> Option<u64>
    requires { decimal digits.now ≡ true }
    ensures { result ≡ moment digits.now }
{
    text_of(digits).parse().ok()
}

fn text_of(bytes: &[u8]) -> &str
    requires { IsUtf8 bytes.now }
    ensures { result.now ≡ bytes.now }
{
    str::from_utf8(bytes).unwrap()
}

fn is_decimal(text: &[u8]) -> bool
    ensures { result ≡ decimal text.now }
{
    match text {
        [] => false,
        [b'0'] => true,
        [b'0', ..] => false,
        _ => all_digits(text),
    }
}

fn all_digits(text: &[u8]) -> bool
    ensures { result ≡ list_all is_ascii_digit text.now }
{
    text.iter().all(|b| b.is_ascii_digit())
}

/// The token that a field writes: `-` for none.
fn token_of(word: &[u8]) -> Option<&[u8]>
    ensures { option_copied result ≡ token word.now }
{
    if word == b"-".as_slice() {
        None
    } else {
        Some(word)
    }
}
