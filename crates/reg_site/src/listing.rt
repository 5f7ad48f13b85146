//! The listing of a registry, a row at a time.
ghost use Rattle.std.specs.Prelude.{◌≡◌, IfOk};
ghost use Rattle.reg_print.specs.Listing.{listing_text};
ghost use Rattle.reg_site.specs.Listing.{listing_left};

use reg_core::page::Page;
use reg_pages::portions::{Next, Portions};
use reg_print::listing::registry::{push_header, push_record};
use reg_print::listing::rows::{ListingRow, rows};
use std::alloc::{AllocError, Global};

/// The listing of a registry in portions, as an office answers it. The first portion is the record of
/// its columns, and each other one the record of a row.
#[derive(Drop)]
pub struct RegistryCsv<'a> {
    rows: Vec<ListingRow<'a>>,
    next: Next,
}

impl<'a> RegistryCsv<'a> {
    /// All of the listing of this registry is to be given. Only want of memory is an error.
    pub fn of(alloc: Global, page: &'a Page) -> Result<Self, AllocError>
        ensures { IfOk result (λ listing. listing_left listing ≡ listing_text page.now) }
    {
        Ok(RegistryCsv {
            rows: rows(alloc, page)?,
            next: Next::Above,
        })
    }
}

impl Portions for RegistryCsv<'_> {
    ghost rest = { listing_left };

    fn push_next(&mut self, out: &mut Vec<u8>) -> Result<bool, AllocError> {
        match self.next {
            Next::Above => push_header(out)?,
            Next::Row(place) => match self.rows.get(place) {
                Some(row) => push_record(out, row)?,
                None => return Ok(false),
            },
            Next::Nothing => return Ok(false),
        }
        self.next = self.next.after(self.rows.len());
        Ok(true)
    }
}
