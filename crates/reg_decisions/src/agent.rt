//! An applicant names an agent, who may read its requests.
ghost use Rattle.std.specs.Prelude.{◌≡◌};
ghost use Rattle.reg_core.specs.Rules.{agent_rule};
ghost use Rattle.reg_core.specs.World.{Link};

use reg_core::change::Change;
use reg_core::decide::Decision;
use reg_core::refusal::Refusal;
use reg_core::text::Account;

/// Decides whether an account is a principal's agent from now on, over whether it is one: itself is
/// refused as `Own`, and where it is so already, nothing changes. Whether the agent has a capability
/// is not asked. It takes no memory.
pub fn decide_agent(
    principal: &Account,
    agent: &Account,
    reads: bool,
    is_agent: bool,
) -> Result<Decision, Refusal>
    ensures { let link : Link = (principal.now, agent.now) in
        result ≡ agent_rule link reads is_agent }
{
    if *agent == *principal {
        return Err(Refusal::Own);
    }
    match (reads, is_agent) {
        (true, true) | (false, false) => Ok(Decision::Same),
        (true, false) | (false, true) => {
            Ok(Decision::Make(Change::SetAgent(*principal, *agent, reads)))
        }
    }
}
