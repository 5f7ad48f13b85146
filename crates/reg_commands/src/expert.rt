//! What an expert may do, once admitted.
ghost use Rattle.std.specs.Prelude.{◌≡◌, ◌↔◌, IfOk, IsOk, IsTrue};
ghost use Rattle.reg_core.specs.declared.command.ExpertCommand.TheVariants as command;
ghost use Rattle.reg_core.specs.declared.journal.Stamp.{Stamp};
ghost use Rattle.reg_registers.specs.Answers.{answer_to_expert};
ghost use Rattle.reg_registers.specs.Caller.{stamp_by};
ghost use Rattle.reg_registers.specs.Performs.{Performs};
ghost use Rattle.reg_registers.specs.Rows.{advised_row};

use reg_core::advice::Advice;
use reg_core::command::ExpertCommand;
use reg_core::queue::QueueRow;
use reg_core::refusal::Refusal;
use reg_core::text::{Account, Ref};
use reg_core::told::Told;
use reg_decisions::decide_advise;
use reg_keeper::keeper::Keeper;
use reg_ranges::formed::Formed;
use reg_registers::caller::Caller;
use reg_registers::carrying::conclude;
use reg_registers::stop::Stop;
use std::alloc::AllocError;

/// What a command of this expert's is answered.
pub fn perform<K: Keeper>(
    keeper: &mut K,
    caller: &Caller,
    command: &ExpertCommand,
) -> Result<Told, Stop>
    ensures { Performs K.world K.Holds K.Sound K.FAILS (stamp_by caller.now)
        keeper.old keeper.new result (answer_to_expert caller.now.capability.account command.now) }
{
    match command {
        ExpertCommand::Queue => list_queue(keeper, &caller.capability.account),
        ExpertCommand::Advise(account, reference, advice) => {
            advise(keeper, caller, account, reference, advice)
        }
    }
}

// The requests that are queued to the expert.
fn list_queue<K: Keeper>(keeper: &mut K, expert: &Account) -> Result<Told, Stop>
    ensures { (stamp : Stamp) → Performs K.world K.Holds K.Sound K.FAILS stamp
        keeper.old keeper.new result (answer_to_expert expert.now command.Queue) }
{
    Ok(Told::Items(keeper.queue(expert)?))
}

// Advice on a request that is queued to the expert. Whether there is one that is not is never
// looked at.
fn advise<K: Keeper>(
    keeper: &mut K,
    caller: &Caller,
    account: &Account,
    reference: &Ref,
    advice: &Advice,
) -> Result<Told, Stop>
    ensures { Performs K.world K.Holds K.Sound K.FAILS (stamp_by caller.now)
        keeper.old keeper.new result (answer_to_expert caller.now.capability.account
        (command.Advise account.now reference.now advice.now)) }
{
    let expert = &caller.capability.account;
    let row = keeper
        .queue_one(expert, account, reference)?
        .ok_or(Refusal::Request)?;
    advice.formed();
    let decision = decide_advise(&row, expert, advice)?;
    let advised = with_advice(row, advice);
    Ok(Told::Item(conclude(keeper, caller, advised, decision)?))
}

// Whether the expert gave just this advice.
fn has_advice(row: &QueueRow, advice: &Advice) -> bool
    ensures { IsTrue result ↔ (row.now.advice ≡ Some advice.now) }
{
    match &row.advice {
        Some(old) => old == advice,
        None => false,
    }
}

// A queued request after its expert gave this advice. Where it is there already, that needs no memory.
fn with_advice(mut row: QueueRow, advice: &Advice) -> Result<QueueRow, AllocError>
    ensures advised { IfOk result (λ r. r ≡ advised_row advice.now row) }
    ensures same { row.advice ≡ Some advice.now → IsOk result }
{
    if has_advice(&row, advice) {
        return Ok(row);
    }
    match advice.copy() {
        Ok(advice) => {
            row.advice = Some(advice);
            Ok(row)
        }
        Err(error) => {
            drop(row);
            Err(error)
        }
    }
}
