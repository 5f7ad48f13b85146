//! A clerk adds a prefix to the pool.
ghost use Rattle.std.specs.Prelude.{◌≡◌};
ghost use Rattle.reg_core.specs.Rules.{pool_rule};

use reg_blocks::pool::is_pool_prefix;
use reg_core::change::Change;
use reg_core::decide::Decision;
use reg_core::refusal::Refusal;

/// Decides an addition to the pool: a number that may not be in a pool is refused as `Bits`, and a
/// prefix that is there already stays so. It takes no memory.
pub fn decide_pool(there: bool, prefix: u32) -> Result<Decision, Refusal>
    ensures { result ≡ pool_rule there prefix }
{
    if !is_pool_prefix(prefix) {
        return Err(Refusal::Bits);
    }
    if there {
        return Ok(Decision::Same);
    }
    Ok(Decision::Make(Change::AddPool(prefix)))
}
