//! Reads asks for a value.
ghost use Rattle.serde_json.specs.View.{view};
ghost use Rattle.reg_json.specs.Members.{Gives};
ghost use Rattle.reg_parse.specs.Bodies.Ask.{code_of};

use crate::bodies::evidence::{EVIDENCE_ITEMS, read_evidence};
use crate::bodies::value::{WANTED_ITEMS, read_wanted_value};
use reg_core::ask::CodeAsk;
use reg_core::wire_refusal::ReadFault;
use reg_json::members;
use serde_json::Value;
use std::alloc::Global;

/// The ask for a value that this object is, or the first of its members at fault.
#[tactic(auto, unfolding(crate::specs::Bodies::Ask::code_of))]
pub fn read_code(alloc: Global, json: &Value) -> Result<CodeAsk, ReadFault>
    ensures { Gives result (code_of (view json.now)) }
{
    let wanted = read_wanted_value(alloc, json)?;
    let evidence = read_evidence(alloc, json)?;
    members::only_of(&WANTED_ITEMS, &EVIDENCE_ITEMS, json)?;
    Ok(CodeAsk {
        registry: wanted.registry,
        want: wanted.want,
        label: wanted.label,
        evidence,
    })
}
