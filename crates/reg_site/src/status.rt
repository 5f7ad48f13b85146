//! How the values of a row stand, as a page says it.
ghost use Rattle.std.specs.Prelude.{◌≡◌};
ghost use Rattle.reg_print.specs.Listing.{row_view};
ghost use Rattle.reg_site.specs.Status.{is_held, is_temporary, shown_status};

use reg_early::term;
use reg_print::listing::rows::{ListingRow, RowStatus};

/// The words of the listing, and of an early allocation that is held that it is.
pub(crate) fn shown_status(row: &ListingRow<'_>) -> &'static str
    ensures { result.now ≡ shown_status (row_view row.now) }
{
    if is_temporary(row.status) && is_held(row) {
        "Temporary (held)"
    } else {
        row.status.word()
    }
}

fn is_temporary(status: RowStatus) -> bool
    ensures { result ≡ is_temporary status }
{
    matches!(status, RowStatus::Entry(term::Status::Temporary))
}

fn is_held(row: &ListingRow<'_>) -> bool
    ensures { result ≡ is_held (row_view row.now).entry }
{
    match row.entry {
        Some(entry) => entry.term.held,
        None => false,
    }
}
