//! Whether a request was advised.
ghost use Rattle.std.specs.Prelude.{◌≡◌};
ghost use Rattle.reg_core.specs.Advice.{is_advised as advised, is_among as among, is_favourable as favourable};

use reg_core::advice::{Opinion, Verdict};
use reg_core::text::Account;

/// Whether one of a request's experts is for it, among all advice on it.
pub(crate) fn is_advised(experts: &[Account], opinions: &[Opinion]) -> bool
    ensures { result ≡ advised experts.now opinions.now }
{
    opinions
        .iter()
        .any(|opinion| is_favourable(experts, opinion))
}

/// Whether the account is one of these.
pub(crate) fn is_among(accounts: &[Account], account: &Account) -> bool
    ensures { result ≡ among account.now accounts.now }
{
    accounts.iter().any(|other| other == account)
}

fn is_favourable(experts: &[Account], opinion: &Opinion) -> bool
    ensures { result ≡ favourable experts.now opinion.now }
{
    match opinion.advice.verdict {
        Verdict::For => is_among(experts, &opinion.expert),
        Verdict::Against => false,
    }
}
