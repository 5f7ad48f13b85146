//! An applicant takes a request back.
ghost use Rattle.std.specs.Prelude.{◌≡◌};
ghost use Rattle.reg_core.specs.Rules.{withdraw_rule};
ghost use Rattle.reg_core.specs.World.{RequestName};

use reg_core::change::Change;
use reg_core::decide::Decision;
use reg_core::refusal::Refusal;
use reg_core::request::{Request, State};

/// Decides a withdrawal of a request of the applicant's: one that is withdrawn already stays so,
/// and one that was decided is refused as `Closed`. It takes no memory.
pub fn decide_withdraw(request: &Request) -> Result<Decision, Refusal>
    ensures { let name : RequestName = (request.now.account, request.now.reference) in
        result ≡ withdraw_rule name request.now.state }
{
    match &request.state {
        State::Withdrawn => Ok(Decision::Same),
        State::Pending => {
            let (account, reference) = (request.account, request.reference);
            Ok(Decision::Make(Change::Close(account, reference, State::Withdrawn)))
        }
        State::Approved(_) | State::Declined(_) => Err(Refusal::Closed),
    }
}
