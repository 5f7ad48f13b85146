//! What an applicant may do about its agents and its principals, once admitted.
ghost use Rattle.reg_core.specs.declared.command.ApplicantCommand.TheVariants as command;
ghost use Rattle.reg_core.specs.declared.journal.Stamp.{Stamp};
ghost use Rattle.reg_registers.specs.Answers.{answer_to_account};
ghost use Rattle.reg_registers.specs.Caller.{stamp_by};
ghost use Rattle.reg_registers.specs.Performs.{Performs};

use reg_core::refusal::Refusal;
use reg_core::text::Account;
use reg_core::told::Told;
use reg_decisions::decide_agent;
use reg_keeper::keeper::Keeper;
use reg_ranges::formed::Formed;
use reg_registers::caller::Caller;
use reg_registers::carrying::conclude;
use reg_registers::stop::Stop;

/// Says of an account whether it may read the applicant's requests. Whether there is a capability
/// of that account is never looked at.
pub fn set_agent<K: Keeper>(
    keeper: &mut K,
    caller: &Caller,
    agent: &Account,
    reads: bool,
) -> Result<Told, Stop>
    ensures { Performs K.world K.Holds K.Sound K.FAILS (stamp_by caller.now)
        keeper.old keeper.new result
        (answer_to_account caller.now.capability.account (command.SetAgent agent.now reads)) }
{
    let account = &caller.capability.account;
    let there = keeper.is_agent(account, agent)?;
    account.formed();
    agent.formed();
    let decision = decide_agent(account, agent, reads, there)?;
    Ok(conclude(keeper, caller, Ok(Told::Agent(*agent, reads)), decision)?)
}

/// The applicant's agents.
pub fn list_agents<K: Keeper>(keeper: &mut K, account: &Account) -> Result<Told, Stop>
    ensures { (stamp : Stamp) → Performs K.world K.Holds K.Sound K.FAILS stamp
        keeper.old keeper.new result (answer_to_account account.now command.Agents) }
{
    Ok(Told::Accounts(keeper.agents(account)?))
}

/// The applicant's principals.
pub fn list_principals<K: Keeper>(keeper: &mut K, account: &Account) -> Result<Told, Stop>
    ensures { (stamp : Stamp) → Performs K.world K.Holds K.Sound K.FAILS stamp
        keeper.old keeper.new result (answer_to_account account.now command.Principals) }
{
    Ok(Told::Accounts(keeper.principals(account)?))
}

/// The requests of one of the applicant's principals.
pub fn list_principal_rows<K: Keeper>(
    keeper: &mut K,
    account: &Account,
    principal: &Account,
) -> Result<Told, Stop>
    ensures { (stamp : Stamp) → Performs K.world K.Holds K.Sound K.FAILS stamp
        keeper.old keeper.new result
        (answer_to_account account.now (command.PrincipalRows principal.now)) }
{
    let rows = keeper
        .principal_rows(principal, account)?
        .ok_or(Refusal::Principal)?;
    Ok(Told::Rows(rows))
}
