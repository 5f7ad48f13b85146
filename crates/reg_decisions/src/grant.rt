//! A clerk gives a token a capability.
ghost use Rattle.std.specs.Prelude.{◌≡◌};
ghost use Rattle.std.specs.Option.{option_copied};
ghost use Rattle.reg_core.specs.Rules.{grant_rule};

use reg_core::capability::Cap;
use reg_core::change::Change;
use reg_core::decide::Decision;
use reg_core::refusal::Refusal;
use reg_core::text::Digest;

/// Decides a grant over the capability that is at the digest already: the same one again changes
/// nothing, and another one is refused as `Exists`. It takes no memory.
pub fn decide_grant(existing: Option<&Cap>, digest: &Digest, cap: &Cap) -> Result<Decision, Refusal>
    ensures { result ≡ grant_rule (option_copied existing.entry) digest.now cap.now }
{
    match existing {
        Some(old) if old == cap => Ok(Decision::Same),
        Some(_) => Err(Refusal::Exists),
        None => Ok(Decision::Make(Change::Grant(*digest, *cap))),
    }
}
