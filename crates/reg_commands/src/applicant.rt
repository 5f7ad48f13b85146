//! What an applicant may do, once admitted.
ghost use Rattle.std.specs.Prelude.{◌≡◌, true, IfOk, IsOk, IsSome, option_map};
ghost use Rattle.std.specs.Option.{option_copied};
ghost use Rattle.reg_core.specs.Allowance.{allowed};
ghost use Rattle.reg_core.specs.Request.{case_of, request_row};
ghost use Rattle.reg_core.specs.Rules.{submit_rule};
ghost use Rattle.reg_core.specs.View.{published};
ghost use Rattle.reg_core.specs.WellKept.{has_request_form};
ghost use Rattle.reg_core.specs.World.{RequestName, pending as pending_case};
ghost use Rattle.reg_core.specs.declared.command.ApplicantCommand.TheVariants as command;
ghost use Rattle.reg_core.specs.declared.journal.Stamp.{Stamp};
ghost use Rattle.reg_registers.specs.Answers.{answer_to_account, told_made};
ghost use Rattle.reg_registers.specs.Caller.{stamp_by};
ghost use Rattle.reg_registers.specs.Performs.{LooksUp, Performs};

use crate::agents::{list_agents, list_principal_rows, list_principals, set_agent};
use crate::holdings::{list_holdings, set_listing};
use reg_core::ask::Ask;
use reg_core::command::ApplicantCommand;
use reg_core::decide::Decision;
use reg_core::refusal::Refusal;
use reg_core::request::{Request, State};
use reg_core::text::{Account, Ref};
use reg_core::told::Told;
use reg_decisions::{decide_submit, decide_withdraw};
use reg_keeper::keeper::Keeper;
use reg_ranges::formed::Formed;
use reg_registers::caller::Caller;
use reg_registers::carrying::{conclude, conclude_on};
use reg_registers::ground::ground_if;
use reg_registers::stop::Stop;
use std::alloc::AllocError;

/// What a command of this applicant's is answered.
pub fn perform<K: Keeper>(
    keeper: &mut K,
    caller: &Caller,
    command: &ApplicantCommand,
) -> Result<Told, Stop>
    ensures { Performs K.world K.Holds K.Sound K.FAILS (stamp_by caller.now)
        keeper.old keeper.new result (answer_to_account caller.now.capability.account command.now) }
{
    let account = &caller.capability.account;
    match command {
        ApplicantCommand::Own => list_own(keeper, account),
        ApplicantCommand::OwnOne(reference) => show_own(keeper, account, reference),
        ApplicantCommand::Submit(reference, ask) => submit(keeper, caller, reference, ask),
        ApplicantCommand::Withdraw(reference) => withdraw(keeper, caller, reference),
        ApplicantCommand::Holdings => list_holdings(keeper, account),
        ApplicantCommand::SetListing(block, private) => {
            set_listing(keeper, caller, block, *private)
        }
        ApplicantCommand::SetAgent(agent, reads) => set_agent(keeper, caller, agent, *reads),
        ApplicantCommand::Agents => list_agents(keeper, account),
        ApplicantCommand::Principals => list_principals(keeper, account),
        ApplicantCommand::PrincipalRows(principal) => {
            list_principal_rows(keeper, account, principal)
        }
    }
}

// The applicant's own requests.
fn list_own<K: Keeper>(keeper: &mut K, account: &Account) -> Result<Told, Stop>
    ensures { (stamp : Stamp) → Performs K.world K.Holds K.Sound K.FAILS stamp
        keeper.old keeper.new result (answer_to_account account.now command.Own) }
{
    Ok(Told::Rows(keeper.own(account)?))
}

// One of the applicant's own requests.
fn show_own<K: Keeper>(keeper: &mut K, account: &Account, reference: &Ref) -> Result<Told, Stop>
    ensures { (stamp : Stamp) → Performs K.world K.Holds K.Sound K.FAILS stamp
        keeper.old keeper.new result
        (answer_to_account account.now (command.OwnOne reference.now)) }
{
    let request = keeper.own_one(account, reference)?.ok_or(Refusal::Request)?;
    Ok(Told::Row(request))
}

// A request of the applicant's.
fn submit<K: Keeper>(
    keeper: &mut K,
    caller: &Caller,
    reference: &Ref,
    ask: &Ask,
) -> Result<Told, Stop>
    ensures { Performs K.world K.Holds K.Sound K.FAILS (stamp_by caller.now)
        keeper.old keeper.new result
        (answer_to_account caller.now.capability.account (command.Submit reference.now ask.now)) }
{
    let account = &caller.capability.account;
    let existing = keeper.own_one(account, reference)?;
    request_formed(account, reference, ask);
    let decision = submission(keeper, existing.as_ref(), account, reference, ask)?;
    let told = told_of(existing, account, reference, ask);
    Ok(conclude(keeper, caller, told, decision)?)
}

// What is decided of a request that is asked for, where this one is there already, or none. No
// registry is looked at for one that is there.
fn submission<K: Keeper>(
    keeper: &mut K,
    existing: Option<&Request>,
    account: &Account,
    reference: &Ref,
    ask: &Ask,
) -> Result<Decision, Stop>
    ensures { LooksUp K.world K.Holds K.Sound K.FAILS keeper.old keeper.new result
        (λ w. submit_rule (allowed (published w) account.now ask.now)
        (account.now, reference.now) ask.now (option_map case_of (option_copied existing.entry))) }
{
    let rows = ground_if(keeper, existing.is_none(), ask)?;
    Ok(decide_submit(existing, account, reference, ask, rows.ground())?)
}

// What is told of a request: as it is there already, or as it is made.
fn told_of(
    existing: Option<Request>,
    account: &Account,
    reference: &Ref,
    ask: &Ask,
) -> Result<Told, AllocError>
    ensures told { IfOk result
        (λ told. told ≡ told_made (account.now, reference.now) ask.now existing) }
    ensures same { IsSome existing → IsOk result }
{
    match existing {
        Some(request) => Ok(Told::Row(request)),
        None => Ok(Told::Made(pending(account, reference, ask)?)),
    }
}

// Takes a request of the applicant's back.
fn withdraw<K: Keeper>(keeper: &mut K, caller: &Caller, reference: &Ref) -> Result<Told, Stop>
    ensures { Performs K.world K.Holds K.Sound K.FAILS (stamp_by caller.now)
        keeper.old keeper.new result
        (answer_to_account caller.now.capability.account (command.Withdraw reference.now)) }
{
    let account = &caller.capability.account;
    let request = keeper.own_one(account, reference)?.ok_or(Refusal::Request)?;
    let decision = decide_withdraw(&request)?;
    Ok(Told::Row(conclude_on(keeper, caller, request, decision)?))
}

fn pending(account: &Account, reference: &Ref, ask: &Ask) -> Result<Request, AllocError>
    ensures { let name : RequestName = (account.now, reference.now) in
        IfOk result (λ row. row ≡ request_row name (pending_case ask.now)) }
{
    Ok(Request {
        account: *account,
        reference: *reference,
        ask: ask.copy()?,
        state: State::Pending,
    })
}

// Does nothing: what it ensures is known by the types.
fn request_formed(account: &Account, reference: &Ref, ask: &Ask)
    ensures { has_request_form (account.now, reference.now) (pending_case ask.now) ≡ true }
{
    account.formed();
    reference.formed();
    ask.formed();
}
