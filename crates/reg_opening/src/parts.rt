//! All rows of an office but its journal, fed to an audit in their turn.
ghost use Rattle.std.specs.Prelude.{◌⊎◌, IfErr};
ghost use Rattle.sqlite.specs.Held.{state};
ghost use Rattle.reg_tables.specs.Connection.{IsIdle};
ghost use Rattle.reg_opening.specs.Causes.{HasCause};
ghost use Rattle.reg_opening.specs.Feeding.{FeedsPart};
ghost use Rattle.reg_opening.specs.Parts.{AreFed, IsBlankWorld, with_fed};
ghost use Rattle.reg_opening.specs.Unordered.{ArePartsUnordered};

use crate::feed::{Part, Reading};
use crate::feeder::Feeder;
use crate::opens::Opens;
use crate::partitions::Registries;
use reg_core::entry::Entry;
use reg_core::holding::Holding;
use reg_core::request::Request;
use reg_keeper::keeper::Fault;
use reg_records::advice::ExpertAdvice;
use reg_records::caps::Grant;
use reg_records::holds::Hold;
use reg_records::links::Link;
use reg_records::minutes::Minute;
use reg_records::pool::Prefix;
use reg_records::queue::Seat;
use sqlite::Connection;

/// One part, and then another.
impl<A: Part, B: Part> Part for (A, B) {
    ghost Before = { λ t w. A.Before t w × B.Before t (A.filled t w) };

    ghost IsHeld = { λ t. A.IsHeld t × B.IsHeld t };

    ghost filled = { λ t w. B.filled t (A.filled t w) };

    ghost Misordered = { λ sql rows. A.Misordered sql rows ⊎ B.Misordered sql rows };

    fn feed<S: Opens>(
        reading: Reading,
        conn: &mut Connection<S>,
        feeder: &mut Feeder,
    ) -> Result<bool, Fault> {
        if !A::feed(reading, conn, feeder)? {
            return Ok(false);
        }
        B::feed(reading, conn, feeder)
    }
}

/// The capabilities, the registries, and the entries with their marks.
type Assigned = (Vec<Grant>, (Registries, (Vec<Entry>, Vec<Hold>)));

/// The pool, the blocks, and the requests with the minutes that renewals name.
type Given = (Vec<Prefix>, (Vec<Holding>, (Vec<Request>, Vec<Minute>)));

/// The assignments, the advice and the agents.
type Reviewed = (Vec<Seat>, (Vec<ExpertAdvice>, Vec<Link>));

/// Feeds all rows of an office of a version but its journal, which an audit does not judge.
pub fn feed_parts<S: Opens>(
    reading: Reading,
    conn: &mut Connection<S>,
    feeder: &mut Feeder,
) -> Result<bool, Fault>
    requires { IsIdle (state S.Store conn.old) }
    ensures feeds { FeedsPart reading.version (λ t. IsBlankWorld) AreFed with_fed
        (state S.Store conn.old) (state S.Store conn.new) feeder.old.audit feeder.new.audit result }
    ensures fault { IfErr result (HasCause S.Reported (S.Unloaded ⊎ S.Ungrown) ArePartsUnordered S.Store
        (state S.Store conn.old) (state S.Store conn.new)) }
{
    <(Assigned, (Given, Reviewed))>::feed(reading, conn, feeder)
}
