//! A clerk assigns a request to an expert.
ghost use Rattle.std.specs.Prelude.{◌≡◌, false};
ghost use Rattle.reg_core.specs.Advice.{is_among as among};
ghost use Rattle.reg_core.specs.Rules.{assign_rule};
ghost use Rattle.reg_core.specs.World.{RequestName};
ghost use Rattle.reg_core.specs.declared.request.State.TheVariants.{Pending};

use crate::review::is_among;
use reg_core::change::Change;
use reg_core::decide::Decision;
use reg_core::refusal::Refusal;
use reg_core::request::{Request, State};
use reg_core::text::Account;

/// Decides an assignment over the request and the experts to whom it is assigned: one of them
/// again changes nothing; a request that is not pending is refused as `Closed`, and the applicant
/// as `Own`. It takes no memory.
pub fn decide_assign(
    request: &Request,
    experts: &[Account],
    expert: &Account,
) -> Result<Decision, Refusal>
    ensures { let name : RequestName = (request.now.account, request.now.reference) in
        let assigned = among expert.now experts.now in
        result ≡ assign_rule name expert.now assigned request.now.state }
{
    if is_among(experts, expert) {
        return Ok(Decision::Same);
    }
    match &request.state {
        State::Pending => assign(request, expert),
        State::Approved(_) | State::Declined(_) | State::Withdrawn => Err(Refusal::Closed),
    }
}

fn assign(request: &Request, expert: &Account) -> Result<Decision, Refusal>
    ensures { let name : RequestName = (request.now.account, request.now.reference) in
        result ≡ assign_rule name expert.now false Pending }
{
    if *expert == request.account {
        return Err(Refusal::Own);
    }
    Ok(Decision::Make(Change::Assign(request.account, request.reference, *expert)))
}
