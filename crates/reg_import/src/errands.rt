//! What the lines of a script ask: the path and the body of each.
ghost use Rattle.std.specs.Prelude.{◌≡◌, IfOk};
ghost use Rattle.std.specs.String.{string_bytes};
ghost use Rattle.reg_import.specs.Lines.{advise, approve, assign, errand_text, grant, hold, submit};

use reg_core::ask::Ask;
use reg_core::capability::Kind;
use reg_core::text::{Account, Name};
use reg_print::asks::ask_text;
use std::alloc::{AllocError, Global};

/// That a token be given a capability.
#[tactic(auto, unfolding(crate::specs::Lines::errand_text))]
pub(crate) fn grant_text(
    alloc: Global,
    token: &str,
    account: &Account,
    kind: Kind,
    until: u64,
) -> Result<String, AllocError>
    ensures { IfOk result
        (λ text. string_bytes text ≡ errand_text (grant token.now account.now kind until)) }
{
    let account = account.as_str();
    let kind = kind.word();
    format!(in alloc;
        "/desk/tokens {{\"account\":\"{account}\",\"kind\":\"{kind}\",\"token\":\"{token}\",\"until\":{until}}}"
    )
}

/// A request under a reference.
#[tactic(auto, unfolding(crate::specs::Lines::errand_text))]
pub(crate) fn submission_text(
    alloc: Global,
    reference: &str,
    ask: &Ask,
) -> Result<Vec<u8>, AllocError>
    ensures { IfOk result (λ text. text.items ≡ errand_text (submit reference.now ask.now)) }
{
    let mut text = format!(in alloc; "/requests/{reference} ")?.into_bytes();
    text.extend_from_slice(ask_text(alloc, ask)?.as_slice())?;
    Ok(text)
}

/// That a request be assigned to an expert.
#[tactic(auto, unfolding(crate::specs::Lines::errand_text))]
pub(crate) fn assignment_text(
    alloc: Global,
    account: &Account,
    reference: &str,
    expert: &Account,
) -> Result<String, AllocError>
    ensures { IfOk result (λ text.
        string_bytes text ≡ errand_text (assign account.now reference.now expert.now)) }
{
    let account = account.as_str();
    let expert = expert.as_str();
    format!(in alloc; "/desk/experts/{account}/{reference}/{expert}")
}

/// That a request be given advice.
#[tactic(auto, unfolding(crate::specs::Lines::errand_text))]
pub(crate) fn advice_text(
    alloc: Global,
    account: &Account,
    reference: &str,
) -> Result<String, AllocError>
    ensures { IfOk result
        (λ text. string_bytes text ≡ errand_text (advise account.now reference.now)) }
{
    let account = account.as_str();
    format!(in alloc; "/queue/{account}/{reference} {{\"text\":\"imported\",\"verdict\":\"for\"}}")
}

/// That a request be approved.
#[tactic(auto, unfolding(crate::specs::Lines::errand_text))]
pub(crate) fn approval_text(
    alloc: Global,
    account: &Account,
    reference: &str,
) -> Result<String, AllocError>
    ensures { IfOk result
        (λ text. string_bytes text ≡ errand_text (approve account.now reference.now)) }
{
    let account = account.as_str();
    format!(in alloc; "/desk/approve/{account}/{reference}")
}

/// That an entry be held.
#[tactic(auto, unfolding(crate::specs::Lines::errand_text))]
pub(crate) fn hold_text(alloc: Global, registry: &Name, value: u32) -> Result<String, AllocError>
    ensures { IfOk result (λ text. string_bytes text ≡ errand_text (hold registry.now value)) }
{
    let registry = registry.as_str();
    format!(in alloc; "/desk/holds/{registry}/{value} {{\"held\":true}}")
}
