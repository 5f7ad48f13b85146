//! The first clerk.
ghost use Rattle.std.specs.Prelude.{◌≡◌, Err, IfErr, OnOk, OnErr, false};
ghost use Rattle.reg_core.specs.Laws.{clerk_cap as first_clerk};
ghost use Rattle.reg_core.specs.Names.{is_token};
ghost use Rattle.reg_keeper.specs.Keeper.{GoesOn};
ghost use Rattle.reg_office.specs.Found.{WasFoundedBy, IsCause, MayFound};

use reg_core::capability::{Cap, Kind, Until};
use reg_core::journal::Stamp;
use reg_core::text::{Account, Token};
use reg_keeper::keeper::{Fault, Keeper};
use reg_registers::capabilities::grant;
use reg_registers::stop::Stop;

/// Why no first clerk was made.
#[derive(Clone, Copy, Debug, PartialEq, Eq)]
pub enum FoundFault {
    /// The token is ill formed.
    Token,
    /// The token has another capability.
    Exists,
    /// The keeper gave no answer.
    Fault(Fault),
}

/// Gives a token the first clerk's capability.
pub fn found<K: Keeper>(keeper: &mut K, stamp: Stamp, token: &[u8]) -> Result<(), FoundFault>
    ensures founded { K.Holds keeper.new →
        OnOk result (WasFoundedBy stamp (K.world keeper.old) (K.world keeper.new) token.now) }
    ensures ill_formed { is_token token.now ≡ false → result ≡ Err FoundFault.Token }
    ensures cause { K.Holds keeper.new → IfErr result (IsCause (K.world keeper.old) token.now) }
    ensures kept { K.Holds keeper.new → OnErr result (K.world keeper.new ≡ K.world keeper.old) }
    ensures premise { GoesOn K.Holds K.Sound keeper.old keeper.new
        (IfErr result (MayFound false)) }
    ensures fault { IfErr result (MayFound K.FAILS) }
{
    let token = Token::read(token).ok_or(FoundFault::Token)?;
    match grant(keeper, stamp, &token, &clerk_cap()) {
        Ok(_) => Ok(()),
        Err(Stop::Refused(_)) => Err(FoundFault::Exists),
        Err(Stop::Fault(fault)) => Err(FoundFault::Fault(fault)),
    }
}

// The capability of the first clerk.
fn clerk_cap() -> Cap
    ensures { result ≡ first_clerk }
{
    Cap {
        account: Account::read(b"clerk").unwrap(),
        kind: Kind::Clerk,
        until: Until::from_seconds(Until::LAST).unwrap(),
    }
}
