//! The last changes that a history has.
ghost use Rattle.std.specs.Prelude.{◌≡◌, ◌+◌, List, map, string_bytes, IfOk};
ghost use Rattle.reg_history.specs.Chain.{chained};
ghost use Rattle.reg_history.specs.Overview.{IsOverview};
ghost use Rattle.reg_site.specs.Changes.{shown};
ghost use Rattle.reg_site.specs.Recent.{changed, day_part, early_words, feed_id, front_of, last_changes, made_words, month_part, numbered, term_words, text_of, until_day, until_of, with_registry, words_of};

use crate::changes::ChangeRow;
use reg_changes::change::{Class, HistoryRecord, PublishedChange};
use reg_history::overview::{Overview, Tied};
use reg_pages::words::as_text;
use std::alloc::{AllocError, Global};
use std::collections::VecDeque;

/// How many bytes the day of a moment has.
const DAY_BYTES: usize = 10;

/// How many bytes the month of a moment has.
const MONTH_BYTES: usize = 7;

/// The last 200 records of a history with their digests, of which the last one comes first. Of the ranges
/// of a new registry only the first is there, as the registry. Only want of memory is an error.
pub fn last_changes<'a>(
    alloc: Global,
    overview: &'a Overview,
) -> Result<Vec<ChangeRow<'a>>, AllocError>
    ensures { IfOk result (λ v. (records : List HistoryRecord) → IsOverview overview.now records
        → map shown v.items ≡ last_changes records (chained records).digests) }
{
    let before = overview.count.saturating_sub(overview.recent.len() as u64);
    let mut changes = numbered(alloc, before, &overview.recent)?;
    changes.reverse();
    changes.retain(|change| change.kind != "range");
    Ok(changes)
}

// Records with their digests, which have numbers from the one after this on. An error comes only where
// there is no memory, or a number is too large.
fn numbered<'a>(
    alloc: Global,
    before: u64,
    recent: &'a VecDeque<Tied>,
) -> Result<Vec<ChangeRow<'a>>, AllocError>
    ensures { IfOk result (λ v. map shown v.items
        ≡ numbered (before + 1) (map (λ t. t.row) recent.now.items) (map (λ t. t.digest) recent.now.items)) }
{
    let mut changes = Vec::new(alloc);
    let mut number = before;
    for place in 0..recent.len() {
        let tied = &recent[place];
        number = next_number(number)?;
        changes.push(changed(number, &tied.row, &tied.digest))?;
    }
    Ok(changes)
}

fn next_number(number: u64) -> Result<u64, AllocError>
    ensures { IfOk result (λ next. next ≡ number + 1) }
{
    number.checked_add(1).ok_or(AllocError)
}

fn changed<'a>(number: u64, row: &'a HistoryRecord, digest: &'a [u8]) -> ChangeRow<'a>
    ensures { shown result ≡ changed number row.now digest.now }
{
    let moment = row.moment.as_str();
    with_registry(ChangeRow {
        number,
        moment,
        month: month_part(moment),
        register: row.change.registry().as_str(),
        kind: row.change.word(),
        words: words_of(&row.change),
        until: until_of(&row.change),
        value: row.change.value(),
        description: row.change.description(),
        digest: text_of(digest),
    })
}

// The first range of a registry is shown as the registry.
fn with_registry(change: ChangeRow<'_>) -> ChangeRow<'_>
    ensures { shown result ≡ with_registry (shown change.entry) }
{
    if change.kind == "range" && change.value.as_bytes().starts_with(b"0".as_slice()) {
        ChangeRow {
            register: "",
            kind: "registry",
            value: change.register,
            description: "",
            ..change
        }
    } else {
        change
    }
}

// What a change did, but for the day until which an entry stands now.
fn words_of(change: &PublishedChange) -> &'static str
    ensures { result.now ≡ words_of change.now }
{
    match change {
        PublishedChange::Made(fact) => made_words(fact.subject.class),
        PublishedChange::Term(_, _, standing) => {
            term_words(standing.expires.as_str(), standing.held.as_str())
        }
    }
}

// What is done when a subject of this class is first published.
fn made_words(class: Class) -> &'static str
    ensures { result.now ≡ made_words class }
{
    match class {
        Class::Range => "registry defined",
        Class::Entry => "assigned",
        Class::Prefix => "prefix added",
        Class::Block => "block assigned",
    }
}

// How an entry stands now that has this expiry.
fn term_words(expires: &str, held: &str) -> &'static str
    ensures { result.now ≡ term_words expires.now held.now }
{
    if expires.is_empty() {
        "now permanent"
    } else {
        early_words(held)
    }
}

fn early_words(held: &str) -> &'static str
    ensures { result.now ≡ early_words held.now }
{
    if held.is_empty() {
        "now until "
    } else {
        "now held"
    }
}

// The day until which an entry stands now; empty where no day ends it, and of other changes.
fn until_of(change: &PublishedChange) -> &str
    ensures { result.now ≡ until_of change.now }
{
    match change {
        PublishedChange::Made(_) => "",
        PublishedChange::Term(_, _, standing) => {
            until_day(standing.expires.as_str(), standing.held.as_str())
        }
    }
}

fn until_day<'a>(expires: &'a str, held: &'a str) -> &'a str
    ensures { result.now ≡ until_day expires.now held.now }
{
    if held.is_empty() { expires } else { "" }
}

/// The id of the feed of a history, by the digest of its first record; it is the same for good. Only
/// want of memory is an error.
pub fn feed_id(alloc: Global, digest: &[u8]) -> Result<String, AllocError>
    ensures { IfOk result (λ id. string_bytes id ≡ feed_id digest.now) }
{
    format!(in alloc; "urn:sha256:{}#changes", text_of(digest))
}

/// The day of a moment, as `YYYY-MM-DD`.
pub fn day_part(moment: &str) -> &str
    ensures { result.now ≡ day_part moment.now }
{
    front_of(moment, DAY_BYTES)
}

// The month of a moment, as `YYYY-MM`.
fn month_part(moment: &str) -> &str
    ensures { result.now ≡ month_part moment.now }
{
    front_of(moment, MONTH_BYTES)
}

// The first bytes of a moment.
fn front_of(moment: &str, count: usize) -> &str
    ensures { result.now ≡ front_of count moment.now }
{
    let bytes = moment.as_bytes();
    text_of(bytes.get(..count).unwrap_or(bytes))
}

/// Bytes as a text; none where they are not UTF-8, as the digits of a digest always are.
pub fn text_of(bytes: &[u8]) -> &str
    ensures { result.now ≡ text_of bytes.now }
{
    as_text(bytes).unwrap_or("")
}
