//! Requests, and what they were given.
ghost use Rattle.std.specs.Prelude.{◌≡◌};
ghost use Rattle.std.specs.BTreeMap.{get};
ghost use Rattle.std.specs.Option.{option_copied};
ghost use Rattle.reg_blocks.specs.Block.{block_cmp};
ghost use Rattle.reg_core.specs.Ask.{registry_of};
ghost use Rattle.reg_core.specs.WellKept.{is_size_asked};
ghost use Rattle.reg_opening.specs.Requests.{is_account, is_assigned_at, is_assignee, is_holdable, stands_by};

use crate::blocks::Holders;
use reg_blocks::block::Block;
use reg_blocks::size::Size;
use reg_core::ask::Ask;
use reg_core::request::{Given, Request, State};
use reg_core::text::{Account, Name};
use std::collections::BTreeMap;

/// What is kept of an entry.
#[derive(Clone, Copy)]
pub struct Standing {
    /// To whom the value is assigned.
    pub assignee: Account,
    /// Whether the entry expires and is not held, so that a mark of it may come.
    pub can_be_held: bool,
}

/// What is kept of each entry, by registry and value.
pub type Standings = BTreeMap<(Name, u32), Standing>;

/// Whether there is an entry that expires, and no mark of it came yet.
pub fn is_holdable(found: Option<&Standing>) -> bool
    ensures { result ≡ is_holdable (option_copied found.entry) }
{
    match found {
        Some(standing) => standing.can_be_held,
        None => false,
    }
}

/// Whether an approved request was given an entry of its account's, or a block of the size that it
/// asked for, which its account holds.
pub fn stands(standings: &Standings, holders: &Holders, request: &Request) -> bool
    ensures { result ≡ stands_by standings.now holders.now request.now.account request.now.ask
        request.now.state }
{
    match &request.state {
        State::Approved(Given::Value(value)) => {
            is_assigned(
                standings,
                &request.account,
                registry_of(&request.ask),
                *value,
            )
        }
        State::Approved(Given::Block(block)) => {
            is_size_asked(&request.ask, block.size()) && is_holder(holders, &request.account, block)
        }
        State::Pending | State::Declined(_) | State::Withdrawn => true,
    }
}

// Whether the account has the entry at a value of a registry.
fn is_assigned(standings: &Standings, account: &Account, registry: Option<Name>, value: u32) -> bool
    ensures { result ≡ is_assigned_at standings.now account.now registry value }
{
    match registry {
        Some(name) => is_assignee(standings.get(&(name, value)), account),
        None => false,
    }
}

// Whether there is an entry and the account is its assignee.
fn is_assignee(found: Option<&Standing>, account: &Account) -> bool
    ensures { result ≡ is_assignee account.now (option_copied found.entry) }
{
    match found {
        Some(standing) => standing.assignee == *account,
        None => false,
    }
}

// Whether the account holds the block.
fn is_holder(holders: &Holders, account: &Account, block: &Block) -> bool
    ensures { result ≡ is_account account.now (get block_cmp holders.now block.now) }
{
    is_same(holders.get(block), account)
}

// Whether there is an account and it is the other one.
fn is_same(found: Option<&Account>, account: &Account) -> bool
    ensures { result ≡ is_account account.now (option_copied found.entry) }
{
    match found {
        Some(other) => other == account,
        None => false,
    }
}

// The registry that an ask names.
fn registry_of(ask: &Ask) -> Option<Name>
    ensures { result ≡ registry_of ask.now }
{
    match ask {
        Ask::Code(code) => Some(code.registry),
        Ask::Early(early) => Some(early.registry),
        Ask::Renew(renewal) => Some(renewal.registry),
        Ask::Permanent(permanence) => Some(permanence.registry),
        Ask::Block(_) => None,
    }
}

// Whether the ask is for a block of this size.
fn is_size_asked(ask: &Ask, size: Size) -> bool
    ensures { result ≡ is_size_asked ask.now size }
{
    match ask {
        Ask::Block(block) => size == block.size,
        Ask::Code(_) | Ask::Early(_) | Ask::Renew(_) | Ask::Permanent(_) => false,
    }
}
