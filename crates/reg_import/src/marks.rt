//! Tokens that nobody guesses, and references.
ghost use Rattle.std.specs.Prelude.{◌≡◌, IfOk};
ghost use Rattle.std.specs.String.{string_bytes};
ghost use Rattle.reg_import.specs.Lines.{pass_token, reference_of, registry_mark};

use crate::import::Import;
use reg_core::capability::Kind;
use reg_core::text::{Account, Name};
use sha2::{Digest, Sha256};
use std::alloc::{AllocError, Global};

/// What a token is for: an account and a value, until a moment.
#[derive(Clone, Copy)]
pub(crate) struct Pass {
    pub kind: Kind,
    pub account: Account,
    pub value: u32,
    pub until: u64,
}

/// A token for what it is for: the SHA-256 of the clerk's token and of that, in hexadecimal.
#[tactic(auto, unfolding(crate::specs::Lines::pass_token))]
pub(crate) fn pass_token(alloc: Global, import: &Import, pass: &Pass) -> Result<String, AllocError>
    ensures { IfOk result (λ token. string_bytes token ≡ pass_token import.now pass.now) }
{
    let clerk = import.clerk.as_str();
    let kind = pass.kind.word();
    let account = pass.account.as_str();
    let registry = import.registry.as_str();
    let value = pass.value;
    let until = pass.until;
    let text = format!(in alloc; "{clerk} {kind} {account} {registry} {value} {until}")?;
    let hash: [u8; 32] = Sha256::digest(text.as_bytes());
    hex::encode(alloc, hash.as_slice())
}

/// The reference of a request for a value of a registry.
pub(crate) fn reference_of(
    alloc: Global,
    word: &str,
    registry: &Name,
    value: u32,
) -> Result<String, AllocError>
    ensures { IfOk result (λ reference.
        string_bytes reference ≡ reference_of word.now registry.now value) }
{
    let mark = registry_mark(alloc, registry)?;
    format!(in alloc; "{word}-{value}-{mark}")
}

// Twelve digits that tell a registry from others.
#[tactic(auto, unfolding(crate::specs::Lines::registry_mark))]
fn registry_mark(alloc: Global, registry: &Name) -> Result<String, AllocError>
    ensures { IfOk result (λ mark. string_bytes mark ≡ registry_mark registry.now) }
{
    let hash: [u8; 32] = Sha256::digest(registry.as_str().as_bytes());
    hex::encode(alloc, &hash[..6])
}
