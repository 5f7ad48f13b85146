//! Why a site was not published.
use reg_changes::change::Subject;
use reg_changes::said::Unrecorded;
use reg_history::history::Unreadable;
use reg_source::unpublished::Unpublished;
use std::alloc::{AllocError, AllocFailed};

/// Why a site was not published, or no more of it. Each file that was published before is whole.
#[derive(Debug, Drop)]
pub enum PublishFault {
    /// Something failed.
    Unpublished(Unpublished),
    /// The history in the folder is at fault, or does not go on to what is published. Nothing was
    /// published then.
    History(HistoryFault),
}

/// What is wrong with the history in a folder.
#[derive(Debug, Drop)]
pub enum HistoryFault {
    /// There is none, but an index for programs.
    Missing,
    /// It does not begin with the record of the columns.
    Header,
    /// The record of this number is not as it has to be after those before it.
    Record(u64),
    /// The index for programs names no record that it has.
    Index,
    /// It has this subject, which is published no more, or otherwise.
    Lost(Subject),
}

impl From<Unpublished> for PublishFault {
    ghost use Rattle.std.specs.Prelude.{◌≡◌};
    ghost use Rattle.reg_publish.specs.declared.faults.PublishFault.TheVariants as fault;

    ghost from_gives = { λ why given. given ≡ fault.Unpublished why };

    fn from(why: Unpublished) -> PublishFault {
        PublishFault::Unpublished(why)
    }
}

impl From<HistoryFault> for PublishFault {
    ghost use Rattle.std.specs.Prelude.{◌≡◌};
    ghost use Rattle.reg_publish.specs.declared.faults.PublishFault.TheVariants as fault;

    ghost from_gives = { λ why given. given ≡ fault.History why };

    fn from(why: HistoryFault) -> PublishFault {
        PublishFault::History(why)
    }
}

impl From<AllocError> for PublishFault {
    ghost use Rattle.std.specs.Prelude.{◌≡◌};
    ghost use Rattle.reg_publish.specs.declared.faults.PublishFault.TheVariants as fault;
    ghost use Rattle.reg_source.specs.declared.unpublished.Unpublished.TheVariants.{Memory};

    ghost from_gives = { λ _ given. given ≡ fault.Unpublished Memory };

    fn from(_error: AllocError) -> PublishFault {
        PublishFault::Unpublished(Unpublished::Memory)
    }
}

impl<T: Drop> From<AllocFailed<T>> for PublishFault {
    ghost use Rattle.std.specs.Prelude.{◌≡◌};
    ghost use Rattle.reg_publish.specs.declared.faults.PublishFault.TheVariants as fault;
    ghost use Rattle.reg_source.specs.declared.unpublished.Unpublished.TheVariants.{Memory};

    ghost from_gives = { λ _ given. given ≡ fault.Unpublished Memory };

    fn from(_failed: AllocFailed<T>) -> PublishFault {
        PublishFault::Unpublished(Unpublished::Memory)
    }
}

impl From<Unreadable> for PublishFault {
    ghost use Rattle.std.specs.Prelude.{◌≡◌};
    ghost use Rattle.reg_publish.specs.Faults.{unreadable_as};

    ghost from_gives = { λ why given. given ≡ unreadable_as why };

    fn from(why: Unreadable) -> PublishFault {
        match why {
            Unreadable::Memory => PublishFault::Unpublished(Unpublished::Memory),
            Unreadable::Header => PublishFault::History(HistoryFault::Header),
            Unreadable::Wrong(number) => PublishFault::History(HistoryFault::Record(number)),
        }
    }
}

impl From<Unrecorded> for PublishFault {
    ghost use Rattle.std.specs.Prelude.{◌≡◌};
    ghost use Rattle.reg_publish.specs.Faults.{unrecorded_as};

    ghost from_gives = { λ why given. given ≡ unrecorded_as why };

    fn from(why: Unrecorded) -> PublishFault {
        match why {
            Unrecorded::Memory => PublishFault::Unpublished(Unpublished::Memory),
            Unrecorded::Lost(subject) => PublishFault::History(HistoryFault::Lost(subject)),
        }
    }
}
