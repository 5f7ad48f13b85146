//! The words of notes: UTF-8 without control characters.
ghost use Rattle.std.specs.Prelude.{◌≡◌, option_map, string_bytes, IfOk};
ghost use Rattle.std.specs.List.{list_all};
ghost use Rattle.std.specs.Str.{chars, is_utf8};
ghost use Rattle.reg_ranges.specs.Texts.{read_text};
ghost use Rattle.reg_pages.specs.Words.{is_plain as plain, is_words as words};

use std::alloc::{AllocError, Global};
use std::marker::Model;

/// How many bytes words have at most.
const MOST_BYTES: usize = 1_000;

/// At most 1,000 bytes of UTF-8 without control characters; there may be none.
#[derive(Debug, Drop)]
pub struct Words {
    text: String,
}

impl Model for Words {
    ghost use Rattle.std.specs.Prelude.{◌≡◌, List, ℕ, true, string_bytes};
    ghost use Rattle.reg_pages.specs.Words.{is_words};

    ghost Value = { List ℕ };

    ghost view = { λ w. string_bytes w.text };

    ghost invariant = { λ w. is_words (string_bytes w.text) ≡ true };
}

impl Words {
    ghost use Rattle.reg_pages.specs.Words.{is_words};

    /// The words of these bytes; none where they have not the form. Only want of memory is an error.
    pub fn read(alloc: Global, bytes: &[u8]) -> Result<Option<Self>, AllocError>
        ensures { IfOk result (λ o. o ≡ read_text is_words bytes.now) }
    {
        let Some(text) = in_form(bytes) else {
            return Ok(None);
        };
        Ok(Some(Words {
            text: String::from_str(alloc, text)?,
        }))
    }

    /// The words.
    pub fn as_str(&self) -> &str
        ensures { result.now ≡ self.now }
    {
        self.text.as_str()
    }
}

// The text of these bytes, where they have the form.
fn in_form(bytes: &[u8]) -> Option<&str>
    ensures { option_map (λ t. t.now) result ≡ read_text words bytes.now }
{
    let text = as_text(bytes)?;
    if text.len() <= MOST_BYTES && are_plain(text) {
        Some(text)
    } else {
        None
    }
}

/// These bytes as a text; none where they are not UTF-8.
pub fn as_text(bytes: &[u8]) -> Option<&str>
    ensures { option_map (λ t. t.now) result ≡ read_text is_utf8 bytes.now }
{
    match str::from_utf8(bytes) {
        Ok(text) => Some(text),
        Err(_) => None,
    }
}

fn are_plain(text: &str) -> bool
    ensures { result ≡ list_all plain (chars text.now) }
{
    text.chars().all(is_plain)
}

// No control character, and none of the two that no text of XML may have.
fn is_plain(c: char) -> bool
    ensures { result ≡ plain c }
{
    !matches!(c, '\0'..='\u{1f}' | '\u{7f}'..='\u{9f}' | '\u{fffe}' | '\u{ffff}')
}
