//! An expert gives advice on a request.
ghost use Rattle.reg_core.specs.Rules.{Follows, advise_rule, new_advice_rule};
ghost use Rattle.reg_core.specs.World.{RequestName};

use reg_core::advice::Advice;
use reg_core::change::Change;
use reg_core::decide::{Decision, Deny};
use reg_core::queue::QueueRow;
use reg_core::refusal::Refusal;
use reg_core::request::StateWord;
use reg_core::text::Account;

/// Decides an advice over the request as it is queued to the expert: the same advice again changes
/// nothing; another one replaces it while the request is pending, and is refused as `Closed` after
/// that.
pub fn decide_advise(row: &QueueRow, expert: &Account, advice: &Advice) -> Result<Decision, Deny>
    ensures { let name : RequestName = (row.now.account, row.now.reference) in
        Follows (advise_rule name expert.now advice.now row.now.advice row.now.word) result }
{
    match &row.advice {
        Some(old) if old == advice => Ok(Decision::Same),
        Some(_) | None => take_advice(row, expert, advice),
    }
}

// The advice is taken while the request is pending.
fn take_advice(row: &QueueRow, expert: &Account, advice: &Advice) -> Result<Decision, Deny>
    ensures { let name : RequestName = (row.now.account, row.now.reference) in
        Follows (new_advice_rule name expert.now advice.now row.now.word) result }
{
    match row.word {
        StateWord::Pending => {
            let advice = advice.copy()?;
            Ok(Decision::Make(Change::Advise(row.account, row.reference, *expert, advice)))
        }
        StateWord::Approved | StateWord::Declined | StateWord::Withdrawn => {
            Err(Deny::Refused(Refusal::Closed))
        }
    }
}
