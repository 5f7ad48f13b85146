//! A clerk declines a request.
ghost use Rattle.reg_core.specs.Rules.{Follows, decline_rule};
ghost use Rattle.reg_core.specs.World.{RequestName};

use reg_core::change::Change;
use reg_core::decide::{Decision, Deny};
use reg_core::refusal::Refusal;
use reg_core::request::{Request, State};
use reg_core::text::Text;

/// Decides that a request is given nothing, for a reason: one that was declined for this reason
/// stays so, and one that was decided otherwise or withdrawn is refused as `Closed`.
pub fn decide_decline(request: &Request, reason: &Text) -> Result<Decision, Deny>
    ensures { let name : RequestName = (request.now.account, request.now.reference) in
        Follows (decline_rule name reason.now request.now.state) result }
{
    match &request.state {
        State::Declined(old) if old == reason => Ok(Decision::Same),
        State::Pending => {
            let state = State::Declined(reason.copy()?);
            Ok(Decision::Make(Change::Close(request.account, request.reference, state)))
        }
        _ => Err(Deny::Refused(Refusal::Closed)),
    }
}
