//! What an applicant may do about the blocks that it holds, once admitted.
ghost use Rattle.std.specs.Prelude.{◌≡◌};
ghost use Rattle.reg_core.specs.declared.command.ApplicantCommand.TheVariants as command;
ghost use Rattle.reg_core.specs.declared.journal.Stamp.{Stamp};
ghost use Rattle.reg_registers.specs.Answers.{answer_to_account};
ghost use Rattle.reg_registers.specs.Caller.{stamp_by};
ghost use Rattle.reg_registers.specs.Performs.{Performs};
ghost use Rattle.reg_registers.specs.Rows.{marked_row};

use reg_blocks::block::Block;
use reg_core::holding::Holding;
use reg_core::refusal::Refusal;
use reg_core::text::Account;
use reg_core::told::Told;
use reg_decisions::decide_listing;
use reg_keeper::keeper::Keeper;
use reg_registers::caller::Caller;
use reg_registers::carrying::conclude;
use reg_registers::stop::Stop;

/// The applicant's own blocks.
pub fn list_holdings<K: Keeper>(keeper: &mut K, account: &Account) -> Result<Told, Stop>
    ensures { (stamp : Stamp) → Performs K.world K.Holds K.Sound K.FAILS stamp
        keeper.old keeper.new result (answer_to_account account.now command.Holdings) }
{
    Ok(Told::Holdings(keeper.holdings(account)?))
}

/// Says of one of the applicant's own blocks whether its holder is private.
pub fn set_listing<K: Keeper>(
    keeper: &mut K,
    caller: &Caller,
    block: &Block,
    private: bool,
) -> Result<Told, Stop>
    ensures { Performs K.world K.Holds K.Sound K.FAILS (stamp_by caller.now)
        keeper.old keeper.new result (answer_to_account caller.now.capability.account
        (command.SetListing block.now private)) }
{
    let account = &caller.capability.account;
    let held = keeper.holding(account, block)?.ok_or(Refusal::Holding)?;
    let decision = decide_listing(&held, private);
    let row = marked(held, private);
    Ok(Told::Held(conclude(keeper, caller, Ok(row), decision)?))
}

// A holding with this mark.
fn marked(holding: Holding, private: bool) -> Holding
    ensures { result ≡ marked_row private holding }
{
    Holding {
        block: holding.block,
        holder: holding.holder,
        organization: holding.organization,
        address: holding.address,
        private,
    }
}
