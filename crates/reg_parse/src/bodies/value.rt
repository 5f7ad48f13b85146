//! Reads which value of a registry an ask is about.
ghost use Rattle.std.specs.Prelude.{◌≡◌};
ghost use Rattle.serde_json.specs.View.{view};
ghost use Rattle.reg_json.specs.Members.{Gives};
ghost use Rattle.reg_parse.specs.Bodies.Value.{allocated_value_of, policy_form, want_of, wanted_value_of};

use reg_core::ask::Want;
use reg_core::item::Item;
use reg_core::text::{Name, Text};
use reg_core::wire_refusal::ReadFault;
use reg_json::members;
use reg_ranges::policy::Policy;
use serde_json::Value;
use std::alloc::Global;

/// A value that an ask wants.
#[derive(Drop)]
pub struct WantedValue {
    /// The registry whose value is wanted.
    pub registry: Name,
    /// Which of its values is wanted.
    pub want: Want,
    /// What the value is to be called in the registry.
    pub label: Text,
}

/// A value that was allocated before.
#[derive(Drop)]
pub struct AllocatedValue {
    /// The registry of the value.
    pub registry: Name,
    /// The value.
    pub value: u32,
}

/// The kind of an ask, and the members that say which value it wants.
pub const WANTED_ITEMS: [Item; 5] = [
    Item::Kind,
    Item::Registry,
    Item::Value,
    Item::Least,
    Item::Label,
];

/// The value that this object wants, or the first of these members at fault.
#[tactic(auto, unfolding(crate::specs::Bodies::Value::wanted_value_of))]
pub fn read_wanted_value(alloc: Global, json: &Value) -> Result<WantedValue, ReadFault>
    ensures { Gives result (wanted_value_of (view json.now)) }
{
    let registry = members::word(json, Item::Registry)?;
    let want = read_want(json)?;
    let label = members::text(alloc, json, Item::Label)?;
    Ok(WantedValue {
        registry,
        want,
        label,
    })
}

/// The allocated value that this object names, or the first of these members at fault.
#[tactic(auto, unfolding(crate::specs::Bodies::Value::allocated_value_of))]
pub fn read_allocated_value(json: &Value) -> Result<AllocatedValue, ReadFault>
    ensures { Gives result (allocated_value_of (view json.now)) }
{
    let registry = members::word(json, Item::Registry)?;
    let value = members::whole_number(json, Item::Value)?;
    Ok(AllocatedValue { registry, value })
}

// `Value` where both or neither of the two members are there.
fn read_want(json: &Value) -> Result<Want, ReadFault>
    ensures { Gives result (want_of (view json.now)) }
{
    match (json.get(Item::Value.name()), json.get(Item::Least.name())) {
        (Some(value), None) => match members::number(value) {
            Some(value) => Ok(Want::Value(value)),
            None => Err(ReadFault::field(Item::Value)),
        },
        (None, Some(least)) => match policy_in(least) {
            Some(policy) => Ok(Want::Least(policy)),
            None => Err(ReadFault::field(Item::Least)),
        },
        _ => Err(ReadFault::field(Item::Value)),
    }
}

fn policy_in(json: &Value) -> Option<Policy>
    ensures { result ≡ policy_form (view json.now) }
{
    Policy::read(json.as_str()?.as_bytes())
}
