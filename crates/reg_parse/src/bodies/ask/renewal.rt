//! Reads asks for another year of an early allocation.
ghost use Rattle.serde_json.specs.View.{view};
ghost use Rattle.reg_json.specs.Members.{Gives};
ghost use Rattle.reg_parse.specs.Bodies.Ask.{renewal_of};

use crate::bodies::early_evidence::{EARLY_EVIDENCE_ITEMS, read_early_evidence};
use crate::bodies::value::read_allocated_value;
use reg_core::ask::RenewalAsk;
use reg_core::item::Item;
use reg_core::wire_refusal::ReadFault;
use reg_json::members;
use serde_json::Value;
use std::alloc::Global;

/// The ask for another year that this object is, or the first of its members at fault.
#[tactic(auto, unfolding(crate::specs::Bodies::Ask::renewal_of))]
pub fn read_renewal(alloc: Global, json: &Value) -> Result<RenewalAsk, ReadFault>
    ensures { Gives result (renewal_of (view json.now)) }
{
    let allocated = read_allocated_value(json)?;
    let evidence = read_early_evidence(alloc, json)?;
    let iesg = members::text_if_there(alloc, json, Item::Iesg)?;
    members::only_of(
        &[Item::Kind, Item::Registry, Item::Value, Item::Iesg],
        &EARLY_EVIDENCE_ITEMS,
        json,
    )?;
    Ok(RenewalAsk {
        registry: allocated.registry,
        value: allocated.value,
        evidence,
        iesg,
    })
}
