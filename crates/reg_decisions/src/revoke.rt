//! A clerk takes capabilities away.
ghost use Rattle.std.specs.Prelude.{◌≡◌, map, IfOk};
ghost use Rattle.std.specs.Option.{option_copied};
ghost use Rattle.reg_core.specs.Rules.{Follows, has_token as token_is_among, revoke_account_rule, revoke_digits_rule, revoke_rule};

use reg_core::capability::{Cap, CapRow};
use reg_core::change::Change;
use reg_core::decide::{Decision, Deny};
use reg_core::refusal::Refusal;
use reg_core::rows::Rows;
use reg_core::text::Digest;
use std::alloc::{AllocError, Global};

/// Decides a revocation over the capability that is at the digest: the digest in use is refused as
/// `Own`, and one without a capability changes nothing. It takes no memory.
pub fn decide_revoke(
    in_use: &Digest,
    existing: Option<&Cap>,
    digest: &Digest,
) -> Result<Decision, Refusal>
    ensures { result ≡ revoke_rule in_use.now (option_copied existing.entry) digest.now }
{
    if in_use == digest {
        return Err(Refusal::Own);
    }
    match existing {
        Some(_) => Ok(Decision::Make(Change::Revoke(*digest))),
        None => Ok(Decision::Same),
    }
}

/// Decides a revocation by digits over the capabilities whose digests begin with them: where the
/// digest in use is among these, it is refused as `Own`, else where there are several, as `Several`,
/// and where there is none, nothing changes. It takes no memory.
pub fn decide_revoke_digits(in_use: &Digest, rows: &[CapRow]) -> Result<Decision, Refusal>
    ensures { result ≡ revoke_digits_rule in_use.now rows.now }
{
    if has_token(in_use, rows) {
        return Err(Refusal::Own);
    }
    match rows {
        [] => Ok(Decision::Same),
        [row] => Ok(Decision::Make(Change::Revoke(row.digest))),
        _ => Err(Refusal::Several),
    }
}

/// Decides a revocation over all capabilities of an account: where the digest in use is among them,
/// it is refused as `Own`, else all go in one change, and where there is none, nothing changes.
pub fn decide_revoke_account(
    alloc: Global,
    in_use: &Digest,
    rows: &[CapRow],
) -> Result<Decision, Deny>
    ensures { Follows (revoke_account_rule in_use.now rows.now) result }
{
    if has_token(in_use, rows) {
        return Err(Deny::Refused(Refusal::Own));
    }
    if rows.is_empty() {
        return Ok(Decision::Same);
    }
    let digests = digests_of(alloc, rows)?;
    Ok(Decision::Make(Change::RevokeAll(Rows::from_vec(digests))))
}

// Whether one of these capabilities is at the digest in use.
fn has_token(in_use: &Digest, rows: &[CapRow]) -> bool
    ensures { result ≡ token_is_among in_use.now rows.now }
{
    rows.iter().any(|row| row.digest == *in_use)
}

// The digests of these capabilities, in their order.
fn digests_of(alloc: Global, rows: &[CapRow]) -> Result<Vec<Digest>, AllocError>
    ensures { IfOk result (λ digests. digests.items ≡ map (λ row. row.digest) rows.now) }
{
    rows.iter().map(|row| row.digest).collect(alloc)
}
