//! Reads asks.
ghost use Rattle.serde_json.specs.View.{view};
ghost use Rattle.reg_json.specs.Members.{Gives, needed};
ghost use Rattle.reg_parse.specs.Bodies.Ask.{ask_kind_form, ask_of};

mod block;
mod code;
mod early;
mod permanence;
mod renewal;

use crate::bodies::ask::block::read_block;
use crate::bodies::ask::code::read_code;
use crate::bodies::ask::early::read_early;
use crate::bodies::ask::permanence::read_permanence;
use crate::bodies::ask::renewal::read_renewal;
use reg_core::ask::Ask;
use reg_core::ask_kind::AskKind;
use reg_core::item::Item;
use reg_core::wire_refusal::ReadFault;
use serde_json::Value;
use std::alloc::Global;

/// The ask that this object is, or the first of its members at fault. `kind` is read first.
#[tactic(auto, unfolding(crate::specs::Bodies::Ask::ask_of))]
pub fn read_ask(alloc: Global, json: &Value) -> Result<Ask, ReadFault>
    ensures { Gives result (ask_of (view json.now)) }
{
    match ask_kind(json)? {
        AskKind::Code => Ok(Ask::Code(read_code(alloc, json)?)),
        AskKind::Early => Ok(Ask::Early(read_early(alloc, json)?)),
        AskKind::Renew => Ok(Ask::Renew(read_renewal(alloc, json)?)),
        AskKind::Permanent => Ok(Ask::Permanent(read_permanence(alloc, json)?)),
        AskKind::Block => Ok(Ask::Block(read_block(alloc, json)?)),
    }
}

fn ask_kind(json: &Value) -> Result<AskKind, ReadFault>
    ensures { Gives result (needed Item.Kind ask_kind_form (view json.now)) }
{
    match json.get(Item::Kind.name()).and_then(Value::as_str) {
        Some(word) => match AskKind::read(word.as_bytes()) {
            Some(kind) => Ok(kind),
            None => Err(ReadFault::field(Item::Kind)),
        },
        None => Err(ReadFault::field(Item::Kind)),
    }
}
