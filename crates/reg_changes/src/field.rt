//! The fields of a record, as texts.
ghost use Rattle.std.specs.Prelude.{◌≡◌, nat_eq, Some, IfOk, refl};
ghost use Rattle.std.specs.Cmp.{partial_equiv_from_equiv};
ghost use Rattle.std.specs.Cmp.Lexicographic.{slice_cmp, pointwise, nat_list_cmp_total, nat_list_eq_equiv, texts_po, texts_ties};
ghost use Rattle.std.specs.Ordering.{nat_cmp};

use std::alloc::{AllocError, Global};
use std::cmp::Ordering;
use std::marker::Model;
use std::rc::RcStr;

/// A field of a record: a text, which its copies share.
#[derive(Debug)]
pub struct Field {
    text: RcStr,
}

impl Model for Field {
    ghost use Rattle.std.specs.Prelude.{List, ℕ};
    ghost use Rattle.std.specs.Rc.{rc_str_bytes};

    ghost Value = { List ℕ };

    ghost view = { λ field. rc_str_bytes field.text };
}

impl Field {
    /// The field with this text. Only want of memory is an error.
    pub fn new(alloc: Global, text: &str) -> Result<Self, AllocError>
        ensures { IfOk result (λ field. field ≡ text.now) }
    {
        Ok(Field {
            text: RcStr::from_str(alloc, text)?,
        })
    }

    /// Its text.
    pub fn as_str(&self) -> &str
        ensures { result.now ≡ self.now }
    {
        self.text.as_str()
    }

    /// An equal field, which shares its text with this one and takes no memory. An error comes only
    /// where there are more copies than can be counted.
    pub fn copy(&self) -> Result<Self, AllocError>
        ensures { IfOk result (λ field. field ≡ self.now) }
    {
        self.clone()
    }
}

impl Clone for Field {
    ghost use Rattle.std.specs.Prelude.{◌≡◌};

    ghost is_clone = { λ field copy. copy ≡ field };

    fn clone(&self) -> Result<Self, AllocError> {
        let text = self.text.clone()?;
        Ok(Field { text })
    }
}

impl Drop for Field {
    fn drop(self) {
        let Field { text: _ } = self;
    }
}

impl PartialEq for Field {
    ghost eq = { pointwise nat_eq };

    ghost laws = { partial_equiv_from_equiv nat_list_eq_equiv };

    fn eq(&self, other: &Self) -> bool {
        self.as_str() == other.as_str()
    }
}

impl Eq for Field {
    ghost laws = { nat_list_eq_equiv };
}

impl PartialOrd for Field {
    ghost partial_cmp = { λ x y. Some (slice_cmp nat_cmp x y) };

    ghost laws = { texts_po };

    fn partial_cmp(&self, other: &Self) -> Option<Ordering> {
        Some(self.cmp(other))
    }
}

impl Ord for Field {
    ghost cmp = { slice_cmp nat_cmp };

    ghost total = { nat_list_cmp_total };

    ghost matches_partial_cmp = { λ x y. refl };

    ghost matches_eq = { texts_ties };

    fn cmp(&self, other: &Self) -> Ordering {
        self.as_str().cmp(other.as_str())
    }
}
