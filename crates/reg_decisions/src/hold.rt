//! A clerk says whether an entry is held.
ghost use Rattle.std.specs.Prelude.{◌≡◌};
ghost use Rattle.reg_early.specs.Terms.{status_on};
ghost use Rattle.reg_core.specs.Rules.{hold_rule, new_hold_rule};
ghost use Rattle.reg_core.specs.World.{Place};
ghost use Rattle.reg_core.specs.declared.change.Change.TheVariants.{SetHold};
ghost use Rattle.reg_core.specs.declared.decide.Decision.TheVariants.{Make};

use reg_core::change::Change;
use reg_core::decide::Decision;
use reg_core::entry::Entry;
use reg_core::refusal::Refusal;
use reg_early::day::Day;
use reg_early::term::Status;

/// Decides on a day whether an entry is held: one without expiry is refused as `Permanent`; where it
/// has the mark already, or has none and is to have none, nothing changes; and one that has expired
/// is not held any more, which is refused as `Expired`. It takes no memory.
pub fn decide_hold(entry: &Entry, held: bool, today: Day) -> Result<Decision, Refusal>
    ensures { let place : Place = (entry.now.registry, entry.now.value) in
        result ≡ hold_rule place held entry.now.term today }
{
    if entry.term.expires.is_none() {
        return Err(Refusal::Permanent);
    }
    match (held, entry.term.held) {
        (true, true) | (false, false) => Ok(Decision::Same),
        (true, false) => hold(entry, today),
        (false, true) => Ok(mark(entry, false)),
    }
}

fn hold(entry: &Entry, today: Day) -> Result<Decision, Refusal>
    ensures { let place : Place = (entry.now.registry, entry.now.value) in
        result ≡ new_hold_rule place (status_on entry.now.term today) }
{
    match entry.term.status(today) {
        Status::Assigned | Status::Temporary => Ok(mark(entry, true)),
        Status::Expired => Err(Refusal::Expired),
    }
}

fn mark(entry: &Entry, held: bool) -> Decision
    ensures { result ≡ Make (SetHold entry.now.registry entry.now.value held) }
{
    Decision::Make(Change::SetHold(entry.registry, entry.value, held))
}
