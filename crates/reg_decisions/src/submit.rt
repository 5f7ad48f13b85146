//! An applicant files a request.
ghost use Rattle.std.specs.Prelude.{option_map};
ghost use Rattle.std.specs.Option.{option_copied};
ghost use Rattle.reg_core.specs.Allowance.{allowed_on};
ghost use Rattle.reg_decisions.specs.Ground.{seen};
ghost use Rattle.reg_core.specs.Request.{case_of};
ghost use Rattle.reg_core.specs.Rules.{Follows, submit_rule};

use crate::allowance::{FoundGround, given_for};
use reg_core::ask::Ask;
use reg_core::change::Change;
use reg_core::decide::{Decision, Deny};
use reg_core::refusal::Refusal;
use reg_core::request::Request;
use reg_core::text::{Account, Ref};

/// Decides a submission over the applicant's own request under that reference and the published
/// rows that the ask needs: the same ask again changes nothing, another one is refused as `Ref`,
/// and a new one is refused where it is not allowed.
pub fn decide_submit<'a>(
    existing: Option<&Request>,
    account: &'a Account,
    reference: &Ref,
    ask: &'a Ask,
    rows: FoundGround<'a>,
) -> Result<Decision, Deny>
    ensures { let allowance = allowed_on (seen rows.entry) account.now ask.now in
        Follows (submit_rule allowance (account.now, reference.now) ask.now
        (option_map case_of (option_copied existing.entry))) result }
{
    match existing {
        Some(old) if old.ask.is_same(ask) => Ok(Decision::Same),
        Some(_) => Err(Deny::Refused(Refusal::Ref)),
        None => {
            given_for(account, ask, rows)?;
            let change = Change::Submit(*account, *reference, ask.copy()?);
            Ok(Decision::Make(change))
        }
    }
}
