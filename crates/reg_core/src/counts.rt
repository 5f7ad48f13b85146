//! How many rows of each kind an office has.
ghost use Rattle.std.specs.Prelude.{◌≡◌, IfSome};
ghost use Rattle.reg_core.specs.Counting.{cap_counts, entry_counts, plus, with_status as status_count};

use crate::capability::CapRow;
use crate::entry::Entry;
use reg_early::day::Day;
use reg_early::term::Status;

/// How many rows of each kind an office has, requests apart.
#[derive(Clone, Copy, Debug, PartialEq, Eq)]
pub struct Counts {
    pub registries: usize,
    pub entries: EntryCounts,
    pub caps: CapCounts,
    /// The prefixes of the pool.
    pub prefixes: usize,
    /// The blocks that were given.
    pub blocks: usize,
    /// The agents of all principals.
    pub agents: usize,
}

/// How many entries there are.
#[derive(Clone, Copy, Debug, PartialEq, Eq)]
pub struct EntryCounts {
    pub all: usize,
    /// Those that are temporary on the day.
    pub temporary: usize,
    /// Those that are expired on the day.
    pub expired: usize,
    /// Those that a clerk holds.
    pub held: usize,
}

/// How many capabilities there are.
#[derive(Clone, Copy, Debug, PartialEq, Eq)]
pub struct CapCounts {
    pub all: usize,
    /// Those that are valid at the moment.
    pub valid: usize,
}

impl EntryCounts {
    /// Of these entries on a day.
    pub fn of(entries: &[Entry], today: Day) -> EntryCounts
        ensures { result ≡ entry_counts today entries.now }
    {
        EntryCounts {
            all: entries.len(),
            temporary: with_status(entries, today, Status::Temporary),
            expired: with_status(entries, today, Status::Expired),
            held: entries.iter().filter(|entry| entry.term.held).count(),
        }
    }

    /// Both together, unless that is more than a number can say.
    pub fn plus(self, more: EntryCounts) -> Option<EntryCounts>
        ensures { IfSome result (λ both. both ≡ plus self more) }
    {
        Some(EntryCounts {
            all: self.all.checked_add(more.all)?,
            temporary: self.temporary.checked_add(more.temporary)?,
            expired: self.expired.checked_add(more.expired)?,
            held: self.held.checked_add(more.held)?,
        })
    }
}

// How many entries have a status on a day.
fn with_status(entries: &[Entry], today: Day, status: Status) -> usize
    ensures { result ≡ status_count today status entries.now }
{
    entries
        .iter()
        .filter(|entry| entry.term.status(today) == status)
        .count()
}

impl CapCounts {
    /// Of these capabilities at a moment, in seconds since 1970-01-01T00:00:00Z.
    pub fn of(caps: &[CapRow], moment: u64) -> CapCounts
        ensures { result ≡ cap_counts moment caps.now }
    {
        CapCounts {
            all: caps.len(),
            valid: caps
                .iter()
                .filter(|row| moment < row.cap.until.seconds())
                .count(),
        }
    }
}
