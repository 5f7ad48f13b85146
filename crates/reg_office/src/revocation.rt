//! Capabilities that are taken away without their tokens.
ghost use Rattle.std.specs.Prelude.{◌≡◌, filter, map, IfOk, IfErr, OnOk, OnErr, false};
ghost use Rattle.reg_keeper.specs.Keeper.{GoesOn};
ghost use Rattle.reg_office.specs.Revocation.{HasClerkAt, IsCause, IsRefusedSo, MayRevoke};
ghost use Rattle.reg_office.specs.Revocation.{is_chosen, is_clerk_at, leaves_clerk as clerk_is_left};
ghost use Rattle.reg_office.specs.Revocation.{may_take as may_go, revoked, taken, taken_of};

use crate::stamps::at_moment;
use reg_core::capability::{Cap, CapRow, Kind};
use reg_core::change::Change;
use reg_core::rows::Rows;
use reg_core::text::{Account, Digest};
use reg_keeper::keeper::{Fault, Keeper};
use reg_registers::carrying::make;
use std::alloc::{AllocError, Global};

/// Which capabilities are taken away.
#[derive(Clone, Copy)]
pub enum Choice<'a> {
    /// The one whose digest begins with these digits, of which there are at least 8.
    Digits(&'a [u8]),
    /// All those of an account.
    Account(&'a Account),
}

/// Why no capabilities are taken away.
#[derive(Clone, Copy, Debug, PartialEq, Eq)]
pub enum RevokeFault {
    /// No capability is chosen; or there are fewer than 8 digits, or more than one digest begins
    /// with them.
    Token,
    /// Afterwards no clerk would have a capability that is valid at the moment.
    Own,
    /// The keeper gave no answer, or there was no memory.
    Fault(Fault),
}

impl From<Fault> for RevokeFault {
    ghost use Rattle.std.specs.Prelude.{◌≡◌};
    ghost use Rattle.reg_office.specs.declared.revocation.RevokeFault.TheVariants as revoke;

    ghost from_gives = { λ given fault. fault ≡ revoke.Fault given };

    fn from(fault: Fault) -> RevokeFault {
        RevokeFault::Fault(fault)
    }
}

impl From<AllocError> for RevokeFault {
    ghost use Rattle.std.specs.Prelude.{◌≡◌};
    ghost use Rattle.reg_keeper.specs.declared.keeper.Fault.TheVariants.{Memory};
    ghost use Rattle.reg_office.specs.declared.revocation.RevokeFault.TheVariants as revoke;

    ghost from_gives = { λ _ fault. fault ≡ revoke.Fault Memory };

    fn from(_error: AllocError) -> RevokeFault {
        RevokeFault::Fault(Fault::Memory)
    }
}

impl Choice<'_> {
    /// Whether a capability is chosen.
    fn has(self, row: &CapRow) -> bool
        ensures { result ≡ is_chosen self.entry row.now }
    {
        match self {
            Choice::Digits(digits) => row.digest.as_str().as_bytes().starts_with(digits),
            Choice::Account(account) => row.cap.account == *account,
        }
    }

    /// Whether so many capabilities may be taken away.
    fn may_take(self, count: usize) -> bool
        ensures { result ≡ may_go self.entry count }
    {
        match self {
            Choice::Digits(digits) => digits.len() >= 8 && count == 1,
            Choice::Account(_) => count > 0,
        }
    }
}

/// Takes away the capabilities that are chosen, all in one change, and gives their rows. `Token`,
/// then `Own`. Where it gives no rows, nothing has changed.
pub fn revoke_chosen<K: Keeper>(
    alloc: Global,
    keeper: &mut K,
    moment: u64,
    choice: Choice<'_>,
) -> Result<Rows<CapRow>, RevokeFault>
    ensures rows { K.Holds keeper.new →
        IfOk result (λ rows. taken moment choice.entry (K.world keeper.old) ≡ Ok rows) }
    ensures world { K.Holds keeper.new →
        IfOk result (λ rows. K.world keeper.new ≡ revoked moment rows (K.world keeper.old)) }
    ensures clerk { K.Holds keeper.new → OnOk result (HasClerkAt moment (K.world keeper.new)) }
    ensures cause { K.Holds keeper.new →
        IfErr result (IsCause moment choice.entry (K.world keeper.old)) }
    ensures kept { K.Holds keeper.new → OnErr result (K.world keeper.new ≡ K.world keeper.old) }
    ensures premise { GoesOn K.Holds K.Sound keeper.old keeper.new (IfErr result (MayRevoke false)) }
    ensures fault { IfErr result (MayRevoke K.FAILS) }
{
    let rows = keeper.caps()?;
    let chosen = chosen_at(alloc, rows.as_slice(), moment, choice)?;
    let digests = digests_of(alloc, chosen.as_slice())?;
    make(
        keeper,
        at_moment(moment),
        Change::RevokeAll(Rows::from_vec(digests)),
    )?;
    Ok(Rows::from_vec(chosen))
}

/// Those of the capabilities that go.
fn chosen_at(
    alloc: Global,
    rows: &[CapRow],
    moment: u64,
    choice: Choice<'_>,
) -> Result<Vec<CapRow>, RevokeFault>
    ensures ok { IfOk result (λ chosen. taken_of moment choice.entry rows.now ≡ Ok chosen.items) }
    ensures err { IfErr result (IsRefusedSo (taken_of moment choice.entry rows.now)) }
{
    let chosen = chosen_in(alloc, rows, choice)?;
    if !choice.may_take(chosen.len()) {
        return Err(RevokeFault::Token);
    }
    if !leaves_clerk(rows, moment, choice) {
        return Err(RevokeFault::Own);
    }
    Ok(chosen)
}

/// Those of the capabilities that are chosen.
fn chosen_in(alloc: Global, rows: &[CapRow], choice: Choice<'_>) -> Result<Vec<CapRow>, AllocError>
    ensures { IfOk result (λ chosen. chosen.items ≡ filter (is_chosen choice.entry) rows.now) }
{
    let mut chosen = Vec::new(alloc);
    for row in rows {
        if choice.has(row) {
            chosen.push(*row)?;
        }
    }
    Ok(chosen)
}

/// Whether a capability of a clerk, valid at a moment, is among those that are not chosen.
fn leaves_clerk(rows: &[CapRow], moment: u64, choice: Choice<'_>) -> bool
    ensures { result ≡ clerk_is_left moment choice.entry rows.now }
{
    rows.iter()
        .any(|row| !choice.has(row) && is_valid_clerk(&row.cap, moment))
}

/// Whether it is a clerk's, and valid at a moment.
fn is_valid_clerk(cap: &Cap, moment: u64) -> bool
    ensures { result ≡ is_clerk_at moment cap.now }
{
    cap.kind == Kind::Clerk && moment < cap.until.seconds()
}

/// The digests of capabilities, in their order.
fn digests_of(alloc: Global, rows: &[CapRow]) -> Result<Vec<Digest>, AllocError>
    ensures { IfOk result (λ digests. digests.items ≡ map (λ row. row.digest) rows.now) }
{
    rows.iter().map(|row| row.digest).collect(alloc)
}
