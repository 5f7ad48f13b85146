//! What a clerk may read of the journal, once admitted.
ghost use Rattle.reg_core.specs.declared.command.ClerkCommand.TheVariants as command;
ghost use Rattle.reg_registers.specs.Answers.{answer_to_clerk};
ghost use Rattle.reg_registers.specs.Caller.{stamp_by};
ghost use Rattle.reg_registers.specs.Performs.{Performs};

use crate::caller::Caller;
use crate::stop::Stop;
use reg_core::refusal::Refusal;
use reg_core::text::{Account, Ref};
use reg_core::told::Told;
use reg_early::day::Day;
use reg_keeper::keeper::Keeper;

/// The acts of a day.
pub fn list_day<K: Keeper>(keeper: &mut K, day: Day) -> Result<Told, Stop>
    ensures { (clerk : Caller) → Performs K.world K.Holds K.Sound K.FAILS (stamp_by clerk)
        keeper.old keeper.new result (answer_to_clerk clerk (command.ActsOn day)) }
{
    Ok(Told::Acts(keeper.acts_on(day)?))
}

/// The acts that an account made.
pub fn list_actor<K: Keeper>(keeper: &mut K, account: &Account) -> Result<Told, Stop>
    ensures { (clerk : Caller) → Performs K.world K.Holds K.Sound K.FAILS (stamp_by clerk)
        keeper.old keeper.new result (answer_to_clerk clerk (command.ActsBy account.now)) }
{
    Ok(Told::Acts(keeper.acts_by(account)?))
}

/// The acts about a request.
pub fn list_request<K: Keeper>(
    keeper: &mut K,
    account: &Account,
    reference: &Ref,
) -> Result<Told, Stop>
    ensures { (clerk : Caller) → Performs K.world K.Holds K.Sound K.FAILS (stamp_by clerk)
        keeper.old keeper.new result
        (answer_to_clerk clerk (command.ActsAbout account.now reference.now)) }
{
    keeper.own_one(account, reference)?.ok_or(Refusal::Request)?;
    Ok(Told::ActsAbout(keeper.acts_about(account, reference)?))
}
