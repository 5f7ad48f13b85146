//! Reads asks for an early allocation.
ghost use Rattle.serde_json.specs.View.{view};
ghost use Rattle.reg_json.specs.Members.{Gives};
ghost use Rattle.reg_parse.specs.Bodies.Ask.{early_of};

use crate::bodies::early_evidence::{EARLY_EVIDENCE_ITEMS, read_early_evidence};
use crate::bodies::value::{WANTED_ITEMS, read_wanted_value};
use reg_core::ask::EarlyAsk;
use reg_core::wire_refusal::ReadFault;
use reg_json::members;
use serde_json::Value;
use std::alloc::Global;

/// The ask for an early allocation that this object is, or the first of its members at fault.
#[tactic(auto, unfolding(crate::specs::Bodies::Ask::early_of))]
pub fn read_early(alloc: Global, json: &Value) -> Result<EarlyAsk, ReadFault>
    ensures { Gives result (early_of (view json.now)) }
{
    let wanted = read_wanted_value(alloc, json)?;
    let evidence = read_early_evidence(alloc, json)?;
    members::only_of(&WANTED_ITEMS, &EARLY_EVIDENCE_ITEMS, json)?;
    Ok(EarlyAsk {
        registry: wanted.registry,
        want: wanted.want,
        label: wanted.label,
        evidence,
    })
}
