//! Carrying out what was decided.
ghost use Rattle.std.specs.Prelude.{◌≡◌, Ok, IfOk, OnOk, IsOk};
ghost use Rattle.reg_core.specs.Answer.{change_by};
ghost use Rattle.reg_core.specs.Journal.{recorded, recorded_if};
ghost use Rattle.reg_core.specs.WellKept.{WellKept, CanApply};
ghost use Rattle.reg_core.specs.declared.decide.Decision.TheVariants.{Same};
ghost use Rattle.reg_keeper.specs.Keeper.{Makes};
ghost use Rattle.reg_registers.specs.Caller.{stamp_by};
ghost use Rattle.reg_registers.specs.Decisions.{CanMake, row_by};

use crate::acts::acts_of;
use crate::caller::Caller;
use reg_core::change::Change;
use reg_core::decide::Decision;
use reg_core::journal::Stamp;
use reg_core::request::{Request, State};
use reg_keeper::keeper::{Fault, Keeper};
use std::alloc::AllocError;

/// Makes a change that fits every well kept world with the rows that it was decided over, with its
/// acts. All changes are made here, and all acts.
pub fn make<K: Keeper>(keeper: &mut K, stamp: Stamp, change: Change) -> Result<(), Fault>
    requires { K.Holds keeper.old →
        WellKept (K.world keeper.old) → CanApply (K.world keeper.old) change }
    ensures { Makes K.world K.Holds K.Sound K.FAILS keeper.old keeper.new result
        (λ w. recorded stamp w change) }
{
    match acts_of(keeper, stamp, &change) {
        Ok(acts) => keeper.record(change, acts.as_slice()),
        Err(fault) => {
            drop(change);
            Err(fault)
        }
    }
}

// Makes the change of a decision, if there is one; where there is none, the keeper is not asked.
pub(crate) fn carry_out<K: Keeper>(
    keeper: &mut K,
    stamp: Stamp,
    decision: Decision,
) -> Result<(), Fault>
    requires { K.Holds keeper.old →
        WellKept (K.world keeper.old) → CanMake (K.world keeper.old) decision }
    ensures change { Makes K.world K.Holds K.Sound K.FAILS keeper.old keeper.new result
        (λ w. recorded_if stamp w (change_by decision)) }
    ensures same { decision ≡ Same → result ≡ Ok tt }
{
    match decision {
        Decision::Make(change) => make(keeper, stamp, change),
        Decision::Same => Ok(()),
    }
}

/// Makes the change of a decision, if there is one, where what is told of it is there, and gives
/// that. A decision to leave all as it is needs no memory.
pub fn conclude<K: Keeper, T: Drop>(
    keeper: &mut K,
    caller: &Caller,
    told: Result<T, AllocError>,
    decision: Decision,
) -> Result<T, Fault>
    requires { OnOk told (K.Holds keeper.old →
        WellKept (K.world keeper.old) → CanMake (K.world keeper.old) decision) }
    ensures told { IfOk result (λ x. told ≡ Ok x) }
    ensures change { Makes K.world K.Holds K.Sound K.FAILS keeper.old keeper.new result
        (λ w. recorded_if (stamp_by caller.now) w (change_by decision)) }
    ensures same { OnOk told (decision ≡ Same → IsOk result) }
{
    let told = told?;
    carry_out(keeper, caller.stamp(), decision)?;
    Ok(told)
}

/// Makes the change of a decision about a request, if there is one, and gives the request as it is
/// after that. A decision to leave all as it is needs no memory.
pub fn conclude_on<K: Keeper>(
    keeper: &mut K,
    caller: &Caller,
    request: Request,
    decision: Decision,
) -> Result<Request, Fault>
    requires { K.Holds keeper.old →
        WellKept (K.world keeper.old) → CanMake (K.world keeper.old) decision }
    ensures row { IfOk result (λ row. row ≡ row_by decision request) }
    ensures change { Makes K.world K.Holds K.Sound K.FAILS keeper.old keeper.new result
        (λ w. recorded_if (stamp_by caller.now) w (change_by decision)) }
    ensures same { decision ≡ Same → result ≡ Ok request }
{
    let row = row_after(request, &decision);
    conclude(keeper, caller, row, decision)
}

// A request as it is after a decision about it. Where the decision leaves all as it is, that needs no
// memory.
fn row_after(request: Request, decision: &Decision) -> Result<Request, AllocError>
    ensures row { IfOk result (λ row. row ≡ row_by decision.now request) }
    ensures same { decision.now ≡ Same → result ≡ Ok request }
{
    let Decision::Make(change) = decision else {
        return Ok(request);
    };
    match change.state() {
        Ok(Some(state)) => Ok(with_state(request, state)),
        Ok(None) => Ok(request),
        Err(error) => {
            drop(request);
            Err(error)
        }
    }
}

// A request in this state.
fn with_state(mut request: Request, state: State) -> Request
    ensures { result ≡ record request { state = state } }
{
    request.state = state;
    request
}
