//! What an applicant is told of when requests came and were decided, once admitted.
ghost use Rattle.std.specs.Prelude.{◌≡◌, map, reverse};
ghost use Rattle.reg_core.specs.Times.{decides as decides_it, last_moment, submits as submits_it};
ghost use Rattle.reg_core.specs.declared.command.TimesCommand.TheVariants as command;
ghost use Rattle.reg_core.specs.declared.journal.Stamp.{Stamp};
ghost use Rattle.reg_keeper.specs.Keeper.{Selects};
ghost use Rattle.reg_registers.specs.Answers.{answer_about_times, row_of_times};
ghost use Rattle.reg_registers.specs.Performs.{Performs};

use crate::gathering::with_row;
use crate::stop::Stop;
use reg_core::command::TimesCommand;
use reg_core::journal::{Act, Deed};
use reg_core::refusal::Refusal;
use reg_core::request::{Request, RequestTimes, State};
use reg_core::rows::Rows;
use reg_core::text::{Account, Ref};
use reg_core::told::Told;
use reg_keeper::keeper::{Fault, Keeper};
use std::alloc::Global;

/// What such a command of this applicant's is answered.
pub fn perform<K: Keeper>(
    alloc: Global,
    keeper: &mut K,
    account: &Account,
    command: &TimesCommand,
) -> Result<Told, Stop>
    ensures { (stamp : Stamp) → Performs K.world K.Holds K.Sound K.FAILS stamp
        keeper.old keeper.new result (answer_about_times account.now command.now) }
{
    match command {
        TimesCommand::Own => {
            let requests = keeper.own(account)?;
            Ok(Told::Times(times_of(alloc, keeper, requests.as_slice())?))
        }
        TimesCommand::Principal(principal) => {
            let requests = keeper
                .principal_rows(principal, account)?
                .ok_or(Refusal::Principal)?;
            Ok(Told::Times(times_of(alloc, keeper, requests.as_slice())?))
        }
    }
}

// When these requests came, and when they were decided.
fn times_of<K: Keeper>(
    alloc: Global,
    keeper: &mut K,
    requests: &[Request],
) -> Result<Rows<RequestTimes>, Fault>
    ensures { Selects K.world K.Holds K.Sound K.FAILS keeper.old keeper.new result
        (λ w rows. rows ≡ map (row_of_times w) requests.now) }
{
    let mut rows = Vec::with_capacity(alloc, requests.len())?;
    for request in requests {
        let row = times_of_one(keeper, request)?;
        rows = with_row(rows, row)?;
    }
    Ok(Rows::from_vec(rows))
}

// When a request came, and when it was decided.
fn times_of_one<K: Keeper>(keeper: &mut K, request: &Request) -> Result<RequestTimes, Fault>
    ensures { Selects K.world K.Holds K.Sound K.FAILS keeper.old keeper.new result
        (λ w row. row ≡ row_of_times w request.now) }
{
    let acts = keeper.acts_about(&request.account, &request.reference)?;
    let acts = acts.as_slice();
    let decided = match request.state {
        State::Pending => None,
        _ => last_decision(acts, &request.account, &request.reference),
    };
    Ok(RequestTimes {
        account: request.account,
        reference: request.reference,
        submitted: last_submission(acts, &request.account, &request.reference),
        decided,
    })
}

// The moment of the last of these acts by which the request came, if it has one.
fn last_submission(acts: &[Act], account: &Account, reference: &Ref) -> Option<u64>
    ensures { result ≡ last_moment (submits_it (account.now, reference.now)) (reverse acts.now) }
{
    let mut moment = None;
    for act in acts {
        if submits(&act.deed, account, reference) {
            moment = act.stamp.moment;
        }
    }
    moment
}

// The moment of the last of these acts by which it was decided, if it has one.
fn last_decision(acts: &[Act], account: &Account, reference: &Ref) -> Option<u64>
    ensures { result ≡ last_moment (decides_it (account.now, reference.now)) (reverse acts.now) }
{
    let mut moment = None;
    for act in acts {
        if decides(&act.deed, account, reference) {
            moment = act.stamp.moment;
        }
    }
    moment
}

// By this the request came.
fn submits(deed: &Deed, account: &Account, reference: &Ref) -> bool
    ensures { result ≡ submits_it (account.now, reference.now) deed.now }
{
    match deed {
        Deed::Submit(of, under) => of == account && under == reference,
        _ => false,
    }
}

// By this it was approved, declined or withdrawn.
fn decides(deed: &Deed, account: &Account, reference: &Ref) -> bool
    ensures { result ≡ decides_it (account.now, reference.now) deed.now }
{
    match deed {
        Deed::Withdraw(of, under)
        | Deed::Decline(of, under)
        | Deed::GiveValue(of, under, _, _)
        | Deed::GiveBlock(of, under, _) => of == account && under == reference,
        _ => false,
    }
}
