//! Capabilities as rows of the table `caps`.
ghost use Rattle.std.specs.Prelude.{◌≡◌};
ghost use Rattle.sqlite.specs.Order.{column};
ghost use Rattle.sqlite.specs.Values.{bound};
ghost use Rattle.reg_maps.specs.Maps.{text_cmp};
ghost use Rattle.reg_records.specs.Columns.{number_in};
ghost use Rattle.reg_records.specs.Caps.{grant_in, grant_values, is_until};

use crate::column::{name, name_value, whole, whole_value, word, word_value};
use crate::record::{Keyed, Record};
use reg_core::capability::{Cap, Until};
use reg_core::text::Digest;
use reg_ranges::formed::Formed;
use sqlite::Row;
use sqlite::types::ValueRef;
use std::alloc::{AllocError, Global};
use std::cmp::Ordering;

/// A capability with the digest of the token that has it.
#[derive(Clone, Copy, PartialEq, Eq)]
pub struct Grant {
    pub digest: Digest,
    pub cap: Cap,
}

impl Record for Grant {
    ghost of = { grant_in };

    fn read(_: Global, row: &Row) -> Result<Option<Self>, AllocError> {
        Ok(grant_in(row))
    }
}

impl Keyed for Grant {
    ghost order = { λ a b. text_cmp a.digest b.digest };

    fn compare(&self, other: &Self) -> Ordering {
        self.digest.cmp(&other.digest)
    }
}

impl Formed for Grant {
    ghost use Rattle.reg_records.specs.Caps.{is_grant};

    ghost has_form = { is_grant };

    fn formed(&self) {
        self.digest.formed();
        self.cap.formed();
    }
}

impl Grant {
    /// The row that is written: digest, account, kind, until.
    pub fn values(&self) -> [ValueRef<'_>; 4]
        ensures { bound result ≡ grant_values self.now }
    {
        [
            name_value(&self.digest),
            name_value(&self.cap.account),
            word_value(&self.cap.kind),
            whole_value(self.cap.until.seconds()),
        ]
    }
}

fn grant_in(row: &Row) -> Option<Grant>
    ensures { result ≡ grant_in row.now }
{
    let digest = name(row, 0)?;
    let account = name(row, 1)?;
    let kind = word(row, 2)?;
    let until = until(row, 3)?;
    Some(Grant {
        digest,
        cap: Cap {
            account,
            kind,
            until,
        },
    })
}

fn until(row: &Row, at: usize) -> Option<Until>
    ensures { result ≡ number_in is_until (column row.now at) }
{
    Until::from_seconds(whole(row, at)?)
}
