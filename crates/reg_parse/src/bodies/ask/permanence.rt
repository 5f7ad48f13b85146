//! Reads asks that an early allocation become permanent.
ghost use Rattle.serde_json.specs.View.{view};
ghost use Rattle.reg_json.specs.Members.{Gives};
ghost use Rattle.reg_parse.specs.Bodies.Ask.{permanence_of};

use crate::bodies::evidence::{EVIDENCE_ITEMS, read_evidence};
use crate::bodies::value::read_allocated_value;
use reg_core::ask::PermanenceAsk;
use reg_core::item::Item;
use reg_core::wire_refusal::ReadFault;
use reg_json::members;
use serde_json::Value;
use std::alloc::Global;

/// The ask for permanence that this object is, or the first of its members at fault.
#[tactic(auto, unfolding(crate::specs::Bodies::Ask::permanence_of))]
pub fn read_permanence(alloc: Global, json: &Value) -> Result<PermanenceAsk, ReadFault>
    ensures { Gives result (permanence_of (view json.now)) }
{
    let allocated = read_allocated_value(json)?;
    let evidence = read_evidence(alloc, json)?;
    members::only_of(
        &[Item::Kind, Item::Registry, Item::Value],
        &EVIDENCE_ITEMS,
        json,
    )?;
    Ok(PermanenceAsk {
        registry: allocated.registry,
        value: allocated.value,
        evidence,
    })
}
