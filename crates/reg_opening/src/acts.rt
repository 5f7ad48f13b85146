//! The acts of a journal, whose rows are read, and whose numbers are to be 1, 2, 3 ..
ghost use Rattle.std.specs.Prelude.{◌≡◌, ◌⊎◌, ◌&&◌, ◌==◌, ◌+◌, [], IfErr, IfOk};
ghost use Rattle.sqlite.specs.Held.{state};
ghost use Rattle.reg_tables.specs.Connection.{Endures, IsIdle, Stays, Works};
ghost use Rattle.reg_tables.specs.Schema.{journal_table};
ghost use Rattle.reg_tables.specs.Selecting.{BeginsWith};
ghost use Rattle.reg_tables.specs.Version.{table_count};
ghost use Rattle.reg_opening.specs.Acts.{AreActsUnordered, CountsActs, CountsRows, last_after};
ghost use Rattle.reg_opening.specs.Causes.{HasCause};
ghost use Rattle.reg_opening.specs.Feeding.{tables_at};
ghost use Rattle.reg_opening.specs.Numbered.{HasRisen};

use crate::feed::Reading;
use crate::flaw::RowFlaw;
use crate::grows::Grows;
use crate::numbered::Rise;
use crate::opens::Opens;
use reg_keeper::keeper::Fault;
use reg_records::acts::NumberedAct;
use reg_records::column::int;
use reg_records::record::Record;
use reg_statements::read::{Sink, each};
use reg_statements::select::all;
use reg_tables::texts::SELECT_JOURNAL;
use sqlite::{Connection, Row};
use std::alloc::{AllocError, Global};

/// The place of the table among those of an office.
const PLACE: usize = 13;

/// How many columns it has.
const WIDTH: usize = 13;

/// All acts, each with its rowid.
const BY_ROWID: &str =
    "SELECT number, day, second, actor, token, kind, account, reference, other, verdict, registry, \
     value, size, rowid FROM journal ORDER BY rowid";

/// An act with its number, and with the rowid of its row, if that is a whole number.
#[derive(Clone, Copy)]
pub struct ShownAct {
    row: NumberedAct,
    rowid: Option<i64>,
}

impl Record for ShownAct {
    ghost use Rattle.reg_opening.specs.Acts.{shown_act_in};

    ghost of = { shown_act_in };

    fn read(alloc: Global, row: &Row) -> Result<Option<Self>, AllocError> {
        match NumberedAct::read(alloc, row)? {
            Some(act) => Ok(Some(ShownAct {
                row: act,
                rowid: int(row, WIDTH),
            })),
            None => Ok(None),
        }
    }
}

/// How far acts were read in the order of their rowids.
#[derive(Clone, Copy)]
pub struct ActTally {
    rise: Rise,
    /// The number of the last one, 0 where there was none.
    last: u32,
    /// Whether the first had the number 1, and each other followed on the one before.
    follows: bool,
}

impl ActTally {
    /// Of no acts.
    fn none() -> Self
        ensures rise { HasRisen result.rise [] }
        ensures last { result.last ≡ 0 }
    {
        ActTally {
            rise: Rise::none(),
            last: 0,
            follows: true,
        }
    }
}

impl<S: Grows> Sink<ShownAct, S> for ActTally {
    ghost use Rattle.reg_opening.specs.Acts.{TakesAct};

    ghost Takes = { TakesAct };

    ghost Whole = { λ _. Unit {0} };

    ghost Untaken = { S.Ungrown };

    fn take(&mut self, shown: ShownAct) -> Result<(), AllocError> {
        let number = shown.row.number;
        self.rise = self.rise.then(shown.rowid);
        self.follows = follows_on(self.follows, self.last, number);
        self.last = number;
        Ok(())
    }
}

/// Whether a number follows on the last one, where each before it did so too.
fn follows_on(before: bool, last: u32, number: u32) -> bool
    ensures { result ≡ (before && (number == last + 1)) }
{
    before && u64::from(number) == u64::from(last) + 1
}

/// How many acts the journal of a version has, if each row reads and their numbers are 1, 2, 3 ..; else
/// the flaw. Rows are read once, in the order of their rowids. Where the numbers do not follow in this
/// order, they are read once more, in the order of their numbers. Rows that the store does not give in
/// their order are a fault of it.
pub(crate) fn count_acts<S: Opens>(
    reading: Reading,
    conn: &mut Connection<S>,
) -> Result<Result<u32, RowFlaw>, Fault>
    requires { IsIdle (state S.Store conn.old) }
    ensures idle { IsIdle (state S.Store conn.new) }
    ensures endures { Endures (state S.Store conn.old) (state S.Store conn.new) }
    ensures stays { Stays (state S.Store conn.old) (state S.Store conn.new) }
    ensures counts { Works (state S.Store conn.new)
        → BeginsWith (table_count reading.version) (state S.Store conn.old).now.schema
        → IfOk result (CountsActs (tables_at reading.version (state S.Store conn.old).now)) }
    ensures fault { IfErr result (HasCause S.Reported (S.Unloaded ⊎ S.Ungrown) AreActsUnordered S.Store
        (state S.Store conn.old) (state S.Store conn.new)) }
{
    if reading.version.tables() <= PLACE {
        return Ok(Ok(0));
    }
    let mut tally = ActTally::none();
    if !each::<S, ShownAct, ActTally>(reading.alloc, conn, BY_ROWID, &[], &mut tally)? {
        return Ok(Err(RowFlaw::Unread(PLACE)));
    }
    if !tally.rise.holds() {
        return Err(Fault::Store);
    }
    if tally.follows {
        return Ok(Ok(tally.last));
    }
    count_by_number(reading.alloc, conn)
}

/// The same of rows that are read in the order of their numbers.
fn count_by_number<S: Opens>(
    alloc: Global,
    conn: &mut Connection<S>,
) -> Result<Result<u32, RowFlaw>, Fault>
    requires { IsIdle (state S.Store conn.old) }
    ensures idle { IsIdle (state S.Store conn.new) }
    ensures endures { Endures (state S.Store conn.old) (state S.Store conn.new) }
    ensures stays { Stays (state S.Store conn.old) (state S.Store conn.new) }
    ensures counts { Works (state S.Store conn.new)
        → BeginsWith 14 (state S.Store conn.old).now.schema
        → IfOk result (CountsRows ((state S.Store conn.old).now.trees journal_table.tree)) }
    ensures fault { IfErr result (HasCause S.Reported (S.Unloaded ⊎ S.Ungrown) AreActsUnordered S.Store
        (state S.Store conn.old) (state S.Store conn.new)) }
{
    let rows = all::<S, NumberedAct>(alloc, conn, SELECT_JOURNAL, &[])?;
    match last_number(rows.as_slice()) {
        Some(last) => Ok(Ok(last)),
        None => Ok(Err(RowFlaw::Unfit(PLACE))),
    }
}

/// The number of the last act, 0 where there is none, if their numbers are 1, 2, 3 ..
fn last_number(mut rows: &[NumberedAct]) -> Option<u32>
    ensures { result ≡ last_after 0 rows.entry.now }
{
    let mut last = 0;
    'acts: while let [row, more @ ..] = rows {
        if u64::from(row.number) != u64::from(last) + 1 {
            return None;
        }
        last = row.number;
        rows = more;
    }
    Some(last)
}
