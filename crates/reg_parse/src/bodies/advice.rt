//! Reads advice.
ghost use Rattle.serde_json.specs.View.{view};
ghost use Rattle.reg_json.specs.Members.{Gives};
ghost use Rattle.reg_parse.specs.Bodies.Advice.{advice_of};

use reg_core::advice::Advice;
use reg_core::item::Item;
use reg_core::wire_refusal::ReadFault;
use reg_json::members;
use serde_json::Value;
use std::alloc::Global;

/// The advice that stands in this object, or the first of its members that has not its form.
#[tactic(auto, unfolding(crate::specs::Bodies::Advice::advice_of))]
pub fn read_advice(alloc: Global, json: &Value) -> Result<Advice, ReadFault>
    ensures { Gives result (advice_of (view json.now)) }
{
    let verdict = members::verdict(json, Item::Verdict)?;
    let text = members::text(alloc, json, Item::Text)?;
    Ok(Advice { verdict, text })
}
