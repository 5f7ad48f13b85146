//! Who may read whose requests.
use crate::text::Account;

/// That an account is an agent of another, its principal.
#[derive(Clone, Copy, PartialEq, Eq)]
pub struct LinkRow {
    pub principal: Account,
    pub agent: Account,
}
