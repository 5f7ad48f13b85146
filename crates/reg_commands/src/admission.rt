//! Who may give a command.
ghost use Rattle.std.specs.Prelude.{◌≡◌, None, Err};
ghost use Rattle.std.specs.Option.{option_copied};
ghost use Rattle.reg_core.specs.Answer.{admitted, in_force};
ghost use Rattle.reg_registers.specs.Caller.{admission, caller_of as caller, valid_cap};
ghost use Rattle.reg_registers.specs.Performs.{LooksUp};

use reg_core::capability::{Cap, Kind};
use reg_core::refusal::Refusal;
use reg_early::day::Day;
use reg_keeper::keeper::Keeper;
use reg_registers::caller::Caller;
use reg_registers::digest::caller_of;
use reg_registers::stop::Stop;

/// The caller with this token, where it may give commands of this kind at this moment, whose day is
/// given too, or the first refusal: `Token`, then `Kind`. A caller without a token is answered without
/// a look at the keeper.
pub fn admit<K: Keeper>(
    keeper: &mut K,
    token: Option<&[u8]>,
    moment: u64,
    day: Day,
    kind: Kind,
) -> Result<Caller, Stop>
    ensures caller { LooksUp K.world K.Holds K.Sound K.FAILS keeper.old keeper.new result
        (λ w. admission w (caller (option_copied token.entry)) moment day kind) }
    ensures nobody { caller (option_copied token.entry) ≡ None →
        result ≡ Err (Stop.Refused Refusal.Token) }
    ensures untouched { caller (option_copied token.entry) ≡ None → keeper.new ≡ keeper.old }
{
    let digest = caller_of(token).ok_or(Refusal::Token)?;
    let existing = keeper.cap(&digest)?;
    let capability = serving(existing, moment, kind)?;
    Ok(Caller {
        digest,
        capability,
        moment,
        day,
    })
}

/// The capability of the caller with this token, where it is valid at this moment, or the refusal:
/// `Token`. A caller without a token is answered without a look at the keeper.
pub fn valid<K: Keeper>(keeper: &mut K, token: Option<&[u8]>, moment: u64) -> Result<Cap, Stop>
    ensures cap { LooksUp K.world K.Holds K.Sound K.FAILS keeper.old keeper.new result
        (λ w. valid_cap w (caller (option_copied token.entry)) moment) }
    ensures nobody { caller (option_copied token.entry) ≡ None →
        result ≡ Err (Stop.Refused Refusal.Token) }
    ensures untouched { caller (option_copied token.entry) ≡ None → keeper.new ≡ keeper.old }
{
    let digest = caller_of(token).ok_or(Refusal::Token)?;
    let existing = keeper.cap(&digest)?;
    Ok(valid_at(existing, moment)?)
}

// The capability that is there, where it is valid.
fn valid_at(existing: Option<Cap>, moment: u64) -> Result<Cap, Refusal>
    ensures { result ≡ in_force existing moment }
{
    let cap = existing.ok_or(Refusal::Token)?;
    if cap.until.seconds() <= moment {
        return Err(Refusal::Token);
    }
    Ok(cap)
}

// The capability by which a command of this kind may be given.
fn serving(existing: Option<Cap>, moment: u64, kind: Kind) -> Result<Cap, Refusal>
    ensures { result ≡ admitted existing moment kind }
{
    let cap = valid_at(existing, moment)?;
    if cap.kind == kind {
        Ok(cap)
    } else {
        Err(Refusal::Kind)
    }
}
