//! What a clerk may do about requests, once admitted.
ghost use Rattle.std.specs.Prelude.{◌≡◌};
ghost use Rattle.reg_core.specs.Request.{is_pending as pending};
ghost use Rattle.reg_core.specs.View.{published};
ghost use Rattle.reg_core.specs.declared.command.ClerkCommand.TheVariants as command;
ghost use Rattle.reg_registers.specs.Answers.{answer_to_clerk};
ghost use Rattle.reg_registers.specs.Caller.{stamp_by};
ghost use Rattle.reg_registers.specs.Decisions.{approval_of};
ghost use Rattle.reg_registers.specs.Performs.{LooksUp, Performs};

use reg_core::case_file::CaseFile;
use reg_core::decide::Decision;
use reg_core::refusal::Refusal;
use reg_core::request::State;
use reg_core::text::{Account, Ref, Text};
use reg_core::told::Told;
use reg_decisions::{decide_approve, decide_assign, decide_decline};
use reg_early::day::Day;
use reg_keeper::keeper::Keeper;
use reg_ranges::formed::Formed;
use reg_registers::arrivals::waiting;
use reg_registers::caller::Caller;
use reg_registers::carrying::conclude_on;
use reg_registers::ground::ground_if;
use reg_registers::stop::Stop;
use std::alloc::Global;

/// All requests.
pub fn list_all<K: Keeper>(keeper: &mut K) -> Result<Told, Stop>
    ensures { (clerk : Caller) → Performs K.world K.Holds K.Sound K.FAILS (stamp_by clerk)
        keeper.old keeper.new result (answer_to_clerk clerk command.AllRequests) }
{
    Ok(Told::Desks(keeper.all()?))
}

/// The requests that wait, with their experts and all advice on them, and with the moments at which
/// they came, in the order in which they came.
pub fn list_pending<K: Keeper>(alloc: Global, keeper: &mut K) -> Result<Told, Stop>
    ensures { (clerk : Caller) → Performs K.world K.Holds K.Sound K.FAILS (stamp_by clerk)
        keeper.old keeper.new result (answer_to_clerk clerk command.PendingRequests) }
{
    Ok(Told::Waiting(waiting(alloc, keeper)?))
}

/// A request, with its experts and all advice on it.
pub fn show_one<K: Keeper>(keeper: &mut K, account: &Account, reference: &Ref) -> Result<Told, Stop>
    ensures { (clerk : Caller) → Performs K.world K.Holds K.Sound K.FAILS (stamp_by clerk)
        keeper.old keeper.new result
        (answer_to_clerk clerk (command.OneRequest account.now reference.now)) }
{
    let file = keeper.file(account, reference)?.ok_or(Refusal::Request)?;
    Ok(Told::Filed(file))
}

/// Assigns a request to an expert.
pub fn assign<K: Keeper>(
    keeper: &mut K,
    caller: &Caller,
    account: &Account,
    reference: &Ref,
    expert: &Account,
) -> Result<Told, Stop>
    ensures { Performs K.world K.Holds K.Sound K.FAILS (stamp_by caller.now)
        keeper.old keeper.new result (answer_to_clerk caller.now
        (command.AssignExpert account.now reference.now expert.now)) }
{
    let file = keeper.file(account, reference)?.ok_or(Refusal::Request)?;
    expert.formed();
    let decision = decide_assign(&file.request, file.experts.as_slice(), expert)?;
    Ok(Told::Desk(conclude_on(keeper, caller, file.request, decision)?))
}

/// Approves a request on the caller's day, over its experts and all advice on it.
pub fn approve<K: Keeper>(
    keeper: &mut K,
    caller: &Caller,
    account: &Account,
    reference: &Ref,
) -> Result<Told, Stop>
    ensures { Performs K.world K.Holds K.Sound K.FAILS (stamp_by caller.now)
        keeper.old keeper.new result
        (answer_to_clerk caller.now (command.Approve account.now reference.now)) }
{
    let file = keeper.file(account, reference)?.ok_or(Refusal::Request)?;
    caller.day.formed();
    let decision = approval(keeper, &file, caller.day)?;
    Ok(Told::Desk(conclude_on(keeper, caller, file.request, decision)?))
}

// What is decided of an approval. No registry is looked at for a request that is not pending.
fn approval<K: Keeper>(keeper: &mut K, file: &CaseFile, today: Day) -> Result<Decision, Stop>
    ensures { LooksUp K.world K.Holds K.Sound K.FAILS keeper.old keeper.new result
        (λ w. approval_of (published w) file.now today) }
{
    let request = &file.request;
    let rows = ground_if(keeper, is_pending(&request.state), &request.ask)?;
    let (experts, opinions) = (file.experts.as_slice(), file.advice.as_slice());
    Ok(decide_approve(request, experts, opinions, rows.ground(), today)?)
}

/// Declines a request, for a reason.
pub fn decline<K: Keeper>(
    keeper: &mut K,
    caller: &Caller,
    account: &Account,
    reference: &Ref,
    reason: &Text,
) -> Result<Told, Stop>
    ensures { Performs K.world K.Holds K.Sound K.FAILS (stamp_by caller.now)
        keeper.old keeper.new result (answer_to_clerk caller.now
        (command.Decline account.now reference.now reason.now)) }
{
    let request = keeper.own_one(account, reference)?.ok_or(Refusal::Request)?;
    reason.formed();
    let decision = decide_decline(&request, reason)?;
    Ok(Told::Desk(conclude_on(keeper, caller, request, decision)?))
}

fn is_pending(state: &State) -> bool
    ensures { result ≡ pending state.now }
{
    matches!(state, State::Pending)
}
