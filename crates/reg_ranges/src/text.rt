//! Printable texts: labels, contacts, reasons, notes.
ghost use Rattle.std.specs.Prelude.{◌≡◌, ℕ, true, false, nat_eq, List, option_map, Some, None, Ok, IfOk, refl};
ghost use Rattle.std.specs.Cmp.{partial_equiv_from_equiv};
ghost use Rattle.std.specs.Cmp.Lexicographic.{slice_cmp, pointwise, nat_list_cmp_total, nat_list_eq_equiv, texts_po, texts_ties};
ghost use Rattle.std.specs.Ordering.{nat_cmp};
ghost use Rattle.std.specs.List.{list_all};
ghost use Rattle.reg_ranges.specs.Texts.{is_text_byte as text_byte, is_text as text, read_text};

use crate::formed::Formed;
use std::alloc::{AllocError, Global};
use std::cmp::Ordering;
use std::marker::Model;
use std::rc::RcStr;

/// 1 to 200 printable ASCII characters: a label, a contact, a reason, a note.
#[derive(Debug)]
pub struct Text {
    text: RcStr,
}

impl Model for Text {
    ghost use Rattle.std.specs.Prelude.{◌≡◌, List, ℕ, true};
    ghost use Rattle.std.specs.Rc.{rc_str_bytes};
    ghost use Rattle.reg_ranges.specs.Texts.{is_text};

    ghost Value = { List ℕ };

    ghost view = { λ t. rc_str_bytes t.text };

    ghost invariant = { λ t. is_text (rc_str_bytes t.text) ≡ true };
}

impl Clone for Text {
    ghost use Rattle.std.specs.Prelude.{◌≡◌};

    ghost is_clone = { λ text copy. copy ≡ text };

    fn clone(&self) -> Result<Self, AllocError> {
        let text = self.text.clone()?;
        Ok(Text { text })
    }
}

// Not derived: what a crate above owes where it lets a text go is proved here, once.
impl Drop for Text {
    fn drop(self) {
        let Text { text: _ } = self;
    }
}

impl Text {
    ghost use Rattle.reg_ranges.specs.Texts.{is_text};

    /// The text of these bytes, which its copies share; none where they have not the form, for which
    /// no memory is taken.
    pub fn read(alloc: Global, bytes: &[u8]) -> Result<Option<Self>, AllocError>
        ensures value { IfOk result (λ o. o ≡ read_text is_text bytes.now) }
        ensures refused { is_text bytes.now ≡ false → result ≡ Ok None }
    {
        let Some(text) = in_form(bytes) else {
            return Ok(None);
        };
        Ok(Some(Text {
            text: RcStr::from_str(alloc, text)?,
        }))
    }

    /// The text, in its form.
    pub fn as_str(&self) -> &str
        ensures text { result.now ≡ self.now }
        ensures form { is_text self.now ≡ true }
    {
        self.text.as_str()
    }

    /// An equal text, which shares its bytes with this one and takes no memory. An error comes only
    /// where there are more copies than can be counted.
    pub fn copy(&self) -> Result<Self, AllocError>
        ensures equal { IfOk result (λ t. t ≡ self.now) }
        ensures form { is_text self.now ≡ true }
    {
        self.formed();
        self.clone()
    }
}

impl Formed for Text {
    ghost use Rattle.reg_ranges.specs.Texts.{is_text};

    ghost has_form = { is_text };

    fn formed(&self) {
        let _ = &self.text;
    }
}

// The text of these bytes, where they have the form.
fn in_form(bytes: &[u8]) -> Option<&str>
    ensures { option_map (λ t. t.now) result ≡ read_text text bytes.now }
{
    if !is_text(bytes) {
        return None;
    }
    Some(str::from_utf8(bytes).unwrap())
}

impl PartialEq for Text {
    ghost eq = { pointwise nat_eq };

    ghost laws = { partial_equiv_from_equiv nat_list_eq_equiv };

    fn eq(&self, other: &Self) -> bool {
        self.as_str() == other.as_str()
    }
}

impl Eq for Text {
    ghost laws = { nat_list_eq_equiv };
}

impl PartialOrd for Text {
    ghost partial_cmp = { λ x y. Some (slice_cmp nat_cmp x y) };

    ghost laws = { texts_po };

    fn partial_cmp(&self, other: &Self) -> Option<Ordering> {
        Some(self.cmp(other))
    }
}

impl Ord for Text {
    ghost cmp = { slice_cmp nat_cmp };

    ghost total = { nat_list_cmp_total };

    ghost matches_partial_cmp = { λ x y. refl };

    ghost matches_eq = { texts_ties };

    fn cmp(&self, other: &Self) -> Ordering {
        self.as_str().cmp(other.as_str())
    }
}

fn is_text(bytes: &[u8]) -> bool
    ensures { result ≡ text bytes.now }
{
    (1..=200).contains(&bytes.len()) && all_text_bytes(bytes)
}

fn all_text_bytes(bytes: &[u8]) -> bool
    ensures { result ≡ list_all text_byte bytes.now }
{
    bytes.iter().all(|b| is_text_byte(*b))
}

fn is_text_byte(b: u8) -> bool
    ensures { result ≡ text_byte b }
{
    matches!(b, b' '..=b'~')
}
