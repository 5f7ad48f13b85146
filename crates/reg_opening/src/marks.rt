//! Which entries are held, and which renewals name a minute.
ghost use Rattle.std.specs.Prelude.{◌≡◌};
ghost use Rattle.reg_early.specs.Terms.{may_be_held};
ghost use Rattle.reg_opening.specs.Rows.{can_be_held, lacks_minute};

use reg_core::ask::Ask;
use reg_early::term::Term;

/// Whether a term expires, if it is held.
pub fn may_be_held(term: &Term) -> bool
    ensures { result ≡ may_be_held term.now }
{
    !term.held || term.expires.is_some()
}

/// Whether a term expires, and is not held yet.
pub fn can_be_held(term: &Term) -> bool
    ensures { result ≡ can_be_held term.now }
{
    !term.held && term.expires.is_some()
}

/// Whether an ask is for a renewal, and names no minute yet.
pub fn lacks_minute(ask: &Ask) -> bool
    ensures { result ≡ lacks_minute ask.now }
{
    match ask {
        Ask::Renew(renewal) => renewal.iesg.is_none(),
        Ask::Code(_) | Ask::Early(_) | Ask::Permanent(_) | Ask::Block(_) => false,
    }
}
