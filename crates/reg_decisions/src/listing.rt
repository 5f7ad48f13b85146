//! An applicant says whether it is listed with a block of its own.
ghost use Rattle.std.specs.Prelude.{◌≡◌};
ghost use Rattle.reg_core.specs.Rules.{private_rule};

use reg_core::change::Change;
use reg_core::decide::Decision;
use reg_core::holding::Holding;

/// Decides how a block of the applicant's is listed: where its holder has the mark already,
/// nothing changes. It refuses nothing and takes no memory.
pub fn decide_listing(holding: &Holding, private: bool) -> Decision
    ensures { result ≡ private_rule holding.now.block private holding.now.private }
{
    match (private, holding.private) {
        (true, true) | (false, false) => Decision::Same,
        (true, false) | (false, true) => Decision::Make(Change::SetPrivate(holding.block, private)),
    }
}
