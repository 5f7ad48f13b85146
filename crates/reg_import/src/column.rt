//! The columns of a register.
ghost use Rattle.std.specs.Prelude.{◌≡◌};
ghost use Rattle.csv.specs.Records.{fields_of};
ghost use Rattle.reg_import.specs.Columns.{column_word, is_header, is_listing_header, is_named, known_columns, place_of, stands_at};

use csv::ByteRecord;

/// A column of a register: one of a listing, or one that holds what policies ask for.
#[derive(Clone, Copy, Debug, PartialEq, Eq)]
pub enum Column {
    Value,
    Description,
    Status,
    Policy,
    First,
    Expires,
    Assignee,
    Contact,
    Specification,
    Rfc,
    Stream,
    Track,
    Minute,
    Draft,
    Stable,
    Interest,
    Chair,
    Director,
    WillBeRfc,
    Held,
}

impl Column {
    /// The columns that may follow those of a listing.
    pub const OPTIONAL: [Column; 13] = [
        Column::Contact,
        Column::Specification,
        Column::Rfc,
        Column::Stream,
        Column::Track,
        Column::Minute,
        Column::Draft,
        Column::Stable,
        Column::Interest,
        Column::Chair,
        Column::Director,
        Column::WillBeRfc,
        Column::Held,
    ];

    /// The word that stands above the column.
    pub fn word(&self) -> &'static str
        ensures { result.now ≡ column_word self.now }
    {
        match self {
            Column::Value => "Value",
            Column::Description => "Description",
            Column::Status => "Status",
            Column::Policy => "Policy",
            Column::First => "First",
            Column::Expires => "Expires",
            Column::Assignee => "Assignee",
            Column::Contact => "Contact",
            Column::Specification => "Specification",
            Column::Rfc => "Rfc",
            Column::Stream => "Stream",
            Column::Track => "Track",
            Column::Minute => "Minute",
            Column::Draft => "Draft",
            Column::Stable => "Stable",
            Column::Interest => "Interest",
            Column::Chair => "Chair",
            Column::Director => "Director",
            Column::WillBeRfc => "WillBeRfc",
            Column::Held => "Held",
        }
    }
}

/// Whether a record is the header of a register: the columns of a listing in their order, and then
/// any of the optional ones, each once.
#[tactic(auto, unfolding(crate::specs::Columns::is_header))]
pub fn is_header(header: &ByteRecord) -> bool
    ensures { result ≡ is_header (fields_of header.now) }
{
    is_listing_header(header) && header.len().saturating_sub(7) == known_columns(header)
}

fn is_listing_header(header: &ByteRecord) -> bool
    ensures { result ≡ is_listing_header (fields_of header.now) }
{
    stands_at(header, 0, Column::Value)
        && stands_at(header, 1, Column::Description)
        && stands_at(header, 2, Column::Status)
        && stands_at(header, 3, Column::Policy)
        && stands_at(header, 4, Column::First)
        && stands_at(header, 5, Column::Expires)
        && stands_at(header, 6, Column::Assignee)
}

fn stands_at(header: &ByteRecord, place: usize, column: Column) -> bool
    ensures { result ≡ stands_at (fields_of header.now) place column }
{
    match header.get(place) {
        Some(field) => field == column.word().as_bytes(),
        None => false,
    }
}

// How many of the optional columns are there.
fn known_columns(header: &ByteRecord) -> usize
    ensures { result ≡ known_columns (fields_of header.now) }
{
    Column::OPTIONAL
        .iter()
        .filter(|column| is_named(header, **column))
        .count()
}

fn is_named(header: &ByteRecord, column: Column) -> bool
    ensures { result ≡ is_named (fields_of header.now) column }
{
    place_of(header, column).is_some()
}

/// The place of a column in a header, if it is there.
pub(crate) fn place_of(header: &ByteRecord, column: Column) -> Option<usize>
    ensures { result ≡ place_of (fields_of header.now) column }
{
    for place in 0..header.len() {
        if stands_at(header, place, column) {
            return Some(place);
        }
    }
    None
}
