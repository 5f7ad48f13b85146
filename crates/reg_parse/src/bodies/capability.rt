//! Reads capabilities.
ghost use Rattle.serde_json.specs.View.{view};
ghost use Rattle.reg_json.specs.Members.{Gives};
ghost use Rattle.reg_parse.specs.Bodies.Capability.{cap_of};

use reg_core::capability::Cap;
use reg_core::item::Item;
use reg_core::wire_refusal::ReadFault;
use reg_json::members;
use serde_json::Value;

/// The capability that stands in this object, or the first of its members that has not its form.
/// It takes no memory.
#[tactic(auto, unfolding(crate::specs::Bodies::Capability::cap_of))]
pub fn read_cap(json: &Value) -> Result<Cap, ReadFault>
    ensures { Gives result (cap_of (view json.now)) }
{
    let account = members::word(json, Item::Account)?;
    let kind = members::kind(json, Item::Kind)?;
    let until = members::until(json, Item::Until)?;
    Ok(Cap {
        account,
        kind,
        until,
    })
}
