//! An audit that is fed rows as they are read.
ghost use Rattle.std.specs.Prelude.{◌≡◌, []};
ghost use Rattle.reg_opening.specs.Feeding.{TakesRow};
ghost use Rattle.reg_opening.specs.Numbered.{HasRisen};

use crate::audit::Audit;
use crate::feed::{Fed, FedRow};
use crate::flaw::RowFlaw;
use crate::grows::Grows;
use crate::numbered::{Numbered, Rise};
use reg_statements::read::Sink;
use std::alloc::AllocError;

/// An audit, how far the rowids of the table have risen that it is fed, and the first flaw of the
/// tables that it was fed.
#[derive(Drop)]
pub struct Feeder {
    pub audit: Audit,
    /// The first flaw, if there is one.
    pub flaw: Option<RowFlaw>,
    rise: Rise,
}

impl Feeder {
    /// One that was fed nothing yet of a table.
    pub fn new(audit: Audit) -> Self
        ensures { result.audit ≡ audit }
    {
        Feeder {
            audit,
            flaw: None,
            rise: Rise::none(),
        }
    }

    /// Begins with a table.
    pub fn begin(&mut self)
        ensures audit { self.new.audit ≡ self.old.audit }
        ensures rise { HasRisen self.new.rise [] }
    {
        self.rise = Rise::none();
    }

    /// Ends with a table: keeps the first flaw. It is that a row of the table does not fit; or, where the
    /// table is not whole, the one that is told.
    pub fn end(&mut self, place: usize, is_whole: bool, told: RowFlaw)
        ensures audit { self.new.audit ≡ self.old.audit }
    {
        if self.flaw.is_some() {
            return;
        }
        if !self.audit.is_well_kept() {
            self.flaw = Some(RowFlaw::Unfit(place));
        } else if !is_whole {
            self.flaw = Some(told);
        }
    }

    /// The first flaw of the tables that it was fed.
    pub fn first_flaw(&self) -> RowFlaw {
        self.flaw.unwrap_or(RowFlaw::Unkept)
    }

    /// Whether each row since it began had a rowid, and that of the next was above it.
    pub fn has_risen(&self) -> bool
        ensures { result ≡ self.now.rise.holds }
    {
        self.rise.holds()
    }
}

impl<T: FedRow, S: Grows> Sink<Numbered<T>, S> for Feeder {
    ghost use Rattle.std.specs.Prelude.{IsTrue};
    ghost use Rattle.reg_opening.specs.Audits.{knows_free};

    ghost Takes = { TakesRow T.row_of };

    ghost Whole = { λ feeder. IsTrue (knows_free feeder.audit) };

    ghost Untaken = { S.Ungrown };

    fn take(&mut self, numbered: Numbered<T>) -> Result<(), AllocError> {
        self.rise = self.rise.then(numbered.rowid());
        self.audit.feed::<S>(numbered.row())?;
        Ok(())
    }
}
