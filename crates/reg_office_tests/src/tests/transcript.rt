//! What a transcript sends, and what is answered to it.
use std::alloc::{AllocError, Global};
use std::ops::Range;
use std::test::Fail;

/// The lines that these transcripts send, in order: those that begin with `> `, without it. A TAB
/// is written as `|`. A line after `>= FIRST..LAST ` is sent for each of these numbers, which stands
/// in the place of each `#`.
pub fn sent(alloc: Global, transcripts: &[&str]) -> Result<String, AllocError> {
    marked(alloc, transcripts, '>')
}

/// The lines that are answered to them: those that begin with `< `, without it, and likewise those
/// after `<= FIRST..LAST `.
pub fn answered(alloc: Global, transcripts: &[&str]) -> Result<String, AllocError> {
    marked(alloc, transcripts, '<')
}

/// The part of a transcript below the line `== TITLE`, up to the next such line.
pub fn part<'a>(transcript: &'a str, title: &str) -> Result<&'a str, Fail> {
    for part in transcript.split("\n== ") {
        if let Some((first, lines)) = part.split_once('\n') {
            if first == title {
                return Ok(lines);
            }
        }
    }
    Err(title.into())
}

// The lines that begin with this mark, without it.
fn marked(alloc: Global, transcripts: &[&str], mark: char) -> Result<String, AllocError> {
    let mut text = String::new(alloc);
    for transcript in transcripts {
        put_lines(&mut text, alloc, transcript, mark)?;
    }
    Ok(text)
}

// Puts the lines that begin with this mark, without it.
fn put_lines(
    text: &mut String,
    alloc: Global,
    transcript: &str,
    mark: char,
) -> Result<(), AllocError> {
    for line in transcript.lines() {
        if let Some(marked) = line.strip_prefix(mark) {
            put_marked(text, alloc, marked)?;
        }
    }
    Ok(())
}

// Puts a line of which the mark is taken, once or for each of its numbers.
fn put_marked(text: &mut String, alloc: Global, marked: &str) -> Result<(), AllocError> {
    let line = marked.replace(alloc, "|", "\t")?;
    let line = line.as_str();
    if let Some(line) = line.strip_prefix(' ') {
        text.push_str(line)?;
        return text.push('\n');
    }
    if let Some((numbers, line)) = numbered(line) {
        for number in numbers {
            let number = number.to_string(alloc)?;
            text.push_str(line.replace(alloc, "#", number.as_str())?.as_str())?;
            text.push('\n')?;
        }
    }
    Ok(())
}

// The numbers and the line of `= FIRST..LAST LINE`. The last number is below the largest there is.
fn numbered(marked: &str) -> Option<(Range<u32>, &str)> {
    let (numbers, line) = marked.strip_prefix("= ")?.split_once(' ')?;
    let (first, last) = numbers.split_once("..")?;
    let first = first.parse().ok()?;
    let last: u32 = last.parse().ok()?;
    Some((first..last.checked_add(1)?, line))
}
