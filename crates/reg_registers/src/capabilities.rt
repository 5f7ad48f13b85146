//! What a clerk may do about capabilities, once admitted.
ghost use Rattle.std.specs.Prelude.{◌≡◌, filter};
ghost use Rattle.std.specs.Result.{result_map_both};
ghost use Rattle.reg_core.specs.CapRows.{begins_with, cap_list, is_of};
ghost use Rattle.reg_core.specs.declared.command.ClerkCommand.TheVariants as command;
ghost use Rattle.reg_core.specs.declared.told.Told.TheVariants.{Granted};
ghost use Rattle.reg_keeper.specs.Keeper.{Selects};
ghost use Rattle.reg_registers.specs.Answers.{answer_to_clerk, answer_to_grant};
ghost use Rattle.reg_registers.specs.Caller.{stamp_by};
ghost use Rattle.reg_registers.specs.Performs.{Performs};

use crate::caller::Caller;
use crate::carrying::{carry_out, conclude};
use crate::digest::digest_of;
use crate::stop::Stop;
use reg_core::capability::{Cap, CapRow};
use reg_core::journal::Stamp;
use reg_core::rows::Rows;
use reg_core::text::{Account, Digits, Token};
use reg_core::told::Told;
use reg_decisions::{decide_grant, decide_revoke, decide_revoke_account, decide_revoke_digits};
use reg_keeper::keeper::{Fault, Keeper};
use reg_ranges::formed::Formed;
use std::alloc::Global;

/// All capabilities.
pub fn list_all<K: Keeper>(keeper: &mut K) -> Result<Told, Stop>
    ensures { (clerk : Caller) → Performs K.world K.Holds K.Sound K.FAILS (stamp_by clerk)
        keeper.old keeper.new result (answer_to_clerk clerk command.AllCapabilities) }
{
    Ok(Told::Capabilities(Rows::from_vec(by_account(keeper)?)))
}

/// All capabilities, by account and digest.
pub fn by_account<K: Keeper>(keeper: &mut K) -> Result<Vec<CapRow>, Fault>
    ensures { Selects K.world K.Holds K.Sound K.FAILS keeper.old keeper.new result
        (λ w rows. rows.items ≡ cap_list w.caps) }
{
    let mut rows = keeper.caps()?.into_vec();
    rows.sort_by_key(|row| (row.cap.account, row.digest))?;
    Ok(rows)
}

/// Gives a token a capability.
pub fn tell_grant<K: Keeper>(
    keeper: &mut K,
    caller: &Caller,
    token: &Token,
    cap: &Cap,
) -> Result<Told, Stop>
    ensures { Performs K.world K.Holds K.Sound K.FAILS (stamp_by caller.now)
        keeper.old keeper.new result
        (answer_to_clerk caller.now (command.Grant token.now cap.now)) }
{
    Ok(Told::Granted(grant(keeper, caller.stamp(), token, cap)?))
}

/// Gives a token a capability, and gives what is told of it. Founding an office has no caller.
pub fn grant<K: Keeper>(keeper: &mut K, stamp: Stamp, token: &Token, cap: &Cap) -> Result<Cap, Stop>
    ensures { Performs K.world K.Holds K.Sound K.FAILS stamp keeper.old keeper.new
        (result_map_both Granted (λ stop. stop) result)
        (answer_to_grant token.now cap.now) }
{
    let digest = digest_of(token.as_str().as_bytes());
    let existing = keeper.cap(&digest)?;
    let decision = decide_grant(existing.as_ref(), &digest, cap)?;
    cap.formed();
    carry_out(keeper, stamp, decision)?;
    Ok(*cap)
}

/// Takes a token's capability away, unless it is the caller's own token.
pub fn revoke<K: Keeper>(keeper: &mut K, caller: &Caller, token: &Token) -> Result<Told, Stop>
    ensures { Performs K.world K.Holds K.Sound K.FAILS (stamp_by caller.now)
        keeper.old keeper.new result (answer_to_clerk caller.now (command.Revoke token.now)) }
{
    let digest = digest_of(token.as_str().as_bytes());
    let existing = keeper.cap(&digest)?;
    let decision = decide_revoke(&caller.digest, existing.as_ref(), &digest)?;
    Ok(conclude(keeper, caller, Ok(Told::Revoked), decision)?)
}

/// Takes the capability away of the one token whose digest begins with these digits.
pub fn revoke_digits<K: Keeper>(
    keeper: &mut K,
    caller: &Caller,
    digits: &Digits,
) -> Result<Told, Stop>
    ensures { Performs K.world K.Holds K.Sound K.FAILS (stamp_by caller.now)
        keeper.old keeper.new result
        (answer_to_clerk caller.now (command.RevokeDigits digits.now)) }
{
    let rows = beginning_with(keeper.caps()?.into_vec(), digits);
    let decision = decide_revoke_digits(&caller.digest, rows.as_slice())?;
    let told = Told::Capabilities(Rows::from_vec(rows));
    Ok(conclude(keeper, caller, Ok(told), decision)?)
}

/// Takes all capabilities of an account away.
pub fn revoke_account<K: Keeper>(
    alloc: Global,
    keeper: &mut K,
    caller: &Caller,
    account: &Account,
) -> Result<Told, Stop>
    ensures { Performs K.world K.Holds K.Sound K.FAILS (stamp_by caller.now)
        keeper.old keeper.new result
        (answer_to_clerk caller.now (command.RevokeAccount account.now)) }
{
    let rows = those_of(keeper.caps()?.into_vec(), account);
    let decision = decide_revoke_account(alloc, &caller.digest, rows.as_slice())?;
    let told = Told::Capabilities(Rows::from_vec(rows));
    Ok(conclude(keeper, caller, Ok(told), decision)?)
}

// Those of the capabilities at digests that begin with these digits.
fn beginning_with(mut rows: Vec<CapRow>, digits: &Digits) -> Vec<CapRow>
    ensures { result.items ≡ filter (begins_with digits.now) rows.items }
{
    let digits = digits.as_str().as_bytes();
    rows.retain(|row| row.digest.as_str().as_bytes().starts_with(digits));
    rows
}

// Those of the capabilities that an account has.
fn those_of(mut rows: Vec<CapRow>, account: &Account) -> Vec<CapRow>
    ensures { result.items ≡ filter (is_of account.now) rows.items }
{
    rows.retain(|row| row.cap.account == *account);
    rows
}
