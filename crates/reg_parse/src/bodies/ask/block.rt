//! Reads asks for a block of addresses.
ghost use Rattle.std.specs.Prelude.{◌≡◌};
ghost use Rattle.serde_json.specs.View.{view};
ghost use Rattle.reg_json.specs.Members.{Gives, needed};
ghost use Rattle.reg_parse.specs.Bodies.Ask.{block_of, size_form, size_named};

use reg_blocks::size::Size;
use reg_core::ask::BlockAsk;
use reg_core::item::Item;
use reg_core::wire_refusal::ReadFault;
use reg_json::members;
use serde_json::Value;
use std::alloc::Global;

/// The ask for a block that this object is, or the first of its members at fault.
#[tactic(auto, unfolding(crate::specs::Bodies::Ask::block_of))]
pub fn read_block(alloc: Global, json: &Value) -> Result<BlockAsk, ReadFault>
    ensures { Gives result (block_of (view json.now)) }
{
    let size = size_in(json)?;
    let organization = members::text(alloc, json, Item::Organization)?;
    let address = members::text(alloc, json, Item::Address)?;
    members::only(
        &[Item::Kind, Item::Size, Item::Organization, Item::Address],
        json,
    )?;
    Ok(BlockAsk {
        size,
        organization,
        address,
    })
}

fn size_in(json: &Value) -> Result<Size, ReadFault>
    ensures { Gives result (needed Item.Size size_form (view json.now)) }
{
    match json.get(Item::Size.name()).and_then(Value::as_str) {
        Some(word) => match size_named(word) {
            Some(size) => Ok(size),
            None => Err(ReadFault::field(Item::Size)),
        },
        None => Err(ReadFault::field(Item::Size)),
    }
}

fn size_named(word: &str) -> Option<Size>
    ensures { result ≡ size_named word.now }
{
    Size::read(word.as_bytes())
}
