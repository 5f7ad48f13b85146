//! A clerk approves a request.
ghost use Rattle.reg_core.specs.Advice.{is_advised as given_advice};
ghost use Rattle.reg_core.specs.Allowance.{allowance_on};
ghost use Rattle.reg_decisions.specs.Ground.{seen};
ghost use Rattle.reg_core.specs.Rules.{Follows, approve_rule, give_rule};
ghost use Rattle.reg_core.specs.World.{RequestName};

use crate::allowance::{FoundGround, allowance_for};
use crate::review::is_advised;
use reg_core::advice::Opinion;
use reg_core::decide::{Decision, Deny};
use reg_core::refusal::Refusal;
use reg_core::request::{Request, State};
use reg_core::text::Account;
use reg_early::day::Day;

/// Decides an approval on a day, over the request, the experts to whom it is assigned, all advice
/// on it, and the published rows that its ask needs: one that is approved already stays so; one
/// that was declined or withdrawn is refused as `Closed`; a pending one is given what its ask is
/// allowed, or is refused where that is, or as `Advice` where experts review it and none of its
/// experts is for it.
pub fn decide_approve<'a>(
    request: &'a Request,
    experts: &[Account],
    opinions: &[Opinion],
    rows: FoundGround<'a>,
    today: Day,
) -> Result<Decision, Deny>
    ensures { let name : RequestName = (request.now.account, request.now.reference) in
        let advised = given_advice experts.now opinions.now in
        let rule = approve_rule (seen rows.entry) advised name request.now.ask today in
        Follows (rule request.now.state) result }
{
    match &request.state {
        State::Approved(_) => Ok(Decision::Same),
        State::Declined(_) | State::Withdrawn => Err(Deny::Refused(Refusal::Closed)),
        State::Pending => decide_pending(request, is_advised(experts, opinions), rows, today),
    }
}

fn decide_pending<'a>(
    request: &'a Request,
    advised: bool,
    rows: FoundGround<'a>,
    today: Day,
) -> Result<Decision, Deny>
    ensures { let name : RequestName = (request.now.account, request.now.reference) in
        let allowance = allowance_on (seen rows.entry) request.now.account request.now.ask in
        Follows (give_rule name today advised allowance) result }
{
    let allowance = allowance_for(&request.account, &request.ask, rows)?;
    if allowance.needs_advice && !advised {
        return Err(Deny::Refused(Refusal::Advice));
    }
    let change = allowance
        .award
        .change(&request.account, &request.reference, today)?;
    Ok(Decision::Make(change))
}
