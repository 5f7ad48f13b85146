//! Reads the members of a JSON object (RFC 8259 section 4). Where a name stands twice, the last one
//! counts.
ghost use Rattle.std.specs.Prelude.{◌≡◌, ◌++◌};
ghost use Rattle.std.specs.BTreeMap.{keys};
ghost use Rattle.std.specs.List.{list_all};
ghost use Rattle.std.specs.String.{string_bytes};
ghost use Rattle.serde_json.specs.View.{view};
ghost use Rattle.serde_json.specs.Find.{as_object};
ghost use Rattle.reg_ranges.specs.Texts.{is_text};
ghost use Rattle.reg_json.specs.Members.{Gives, GivesSeen, object_of, needed, optional, optional_truth, only, is_among, names_any, text_form, number_form, until_form, truth_form, kind_form, verdict_form};

use reg_core::advice::Verdict;
use reg_core::capability::{Kind, Until};
use reg_core::item::Item;
use reg_core::text::{Form, Text, Word};
use reg_core::wire_refusal::{ReadFault, WireRefusal};
use serde_json::{Map, Value};
use std::alloc::Global;

/// The one JSON object that the bytes are. `Body` where they are none: not UTF-8, no JSON text,
/// nested more than 127 deep, or another value than an object.
pub fn object_of(alloc: Global, body: &[u8]) -> Result<Value, ReadFault>
    ensures { GivesSeen view result (object_of body.now) }
{
    match Value::from_slice(alloc, body) {
        Ok(value) => if value.is_object() {
            Ok(value)
        } else {
            Err(ReadFault::Refused(WireRefusal::Body))
        },
        Err(error) => if error.is_memory() {
            Err(ReadFault::Memory)
        } else {
            Err(ReadFault::Refused(WireRefusal::Body))
        },
    }
}

/// The name of this member. `Field` with the item where it is missing or has not the form. It takes
/// no memory.
pub fn word<F: Form<N>, const N: usize>(object: &Value, item: Item) -> Result<Word<F, N>, ReadFault>
    ensures { Gives result (needed item (text_form F.fits) (view object.now)) }
{
    match object.get(item.name()).and_then(Value::as_str) {
        Some(text) => match Word::read(text.as_bytes()) {
            Some(word) => Ok(word),
            None => Err(ReadFault::field(item)),
        },
        None => Err(ReadFault::field(item)),
    }
}

/// The text of this member. `Field` with the item where it is missing or has not the form.
pub fn text(alloc: Global, object: &Value, item: Item) -> Result<Text, ReadFault>
    ensures { Gives result (needed item (text_form is_text) (view object.now)) }
{
    match object.get(item.name()).and_then(Value::as_str) {
        Some(text) => match Text::read(alloc, text.as_bytes())? {
            Some(text) => Ok(text),
            None => Err(ReadFault::field(item)),
        },
        None => Err(ReadFault::field(item)),
    }
}

/// The text of this member, or none where it is missing. `Field` with the item where it has not the
/// form.
pub fn text_if_there(alloc: Global, object: &Value, item: Item) -> Result<Option<Text>, ReadFault>
    ensures { Gives result (optional item (text_form is_text) (view object.now)) }
{
    if object.get(item.name()).is_none() {
        return Ok(None);
    }
    Ok(Some(text(alloc, object, item)?))
}

/// The whole number that this is, 0 to 4294967295, written with digits alone.
pub fn number(json: &Value) -> Option<u32>
    ensures { result ≡ number_form (view json.now) }
{
    match json.as_u64() {
        Some(n) => u32::try_from(n).ok(),
        None => None,
    }
}

/// The whole number of this member, 0 to 4294967295. `Field` with the item where it is missing or no
/// such number. It takes no memory.
pub fn whole_number(object: &Value, item: Item) -> Result<u32, ReadFault>
    ensures { Gives result (needed item number_form (view object.now)) }
{
    match object.get(item.name()) {
        Some(member) => match number(member) {
            Some(n) => Ok(n),
            None => Err(ReadFault::field(item)),
        },
        None => Err(ReadFault::field(item)),
    }
}

/// The end of a capability in this member, a whole number of 0 to 32503680000 written with digits
/// alone. `Field` with the item where it is missing or no such number.
pub fn until(object: &Value, item: Item) -> Result<Until, ReadFault>
    ensures { Gives result (needed item until_form (view object.now)) }
{
    match object.get(item.name()).and_then(Value::as_u64) {
        Some(seconds) => match Until::from_seconds(seconds) {
            Some(until) => Ok(until),
            None => Err(ReadFault::field(item)),
        },
        None => Err(ReadFault::field(item)),
    }
}

/// Whether this member is true. `Field` with the item where it is missing or neither true nor
/// false. It takes no memory.
pub fn truth(object: &Value, item: Item) -> Result<bool, ReadFault>
    ensures { Gives result (needed item truth_form (view object.now)) }
{
    match object.get(item.name()).and_then(Value::as_bool) {
        Some(truth) => Ok(truth),
        None => Err(ReadFault::field(item)),
    }
}

/// Whether this member is true; false where it is missing. `Field` with the item where it is neither
/// true nor false. It takes no memory.
pub fn truth_if_there(object: &Value, item: Item) -> Result<bool, ReadFault>
    ensures { Gives result (optional_truth item (view object.now)) }
{
    match object.get(item.name()) {
        Some(_) => truth(object, item),
        None => Ok(false),
    }
}

/// The kind of capability in this member. `Field` with the item where it is missing or no kind's
/// word.
pub fn kind(object: &Value, item: Item) -> Result<Kind, ReadFault>
    ensures { Gives result (needed item kind_form (view object.now)) }
{
    match object.get(item.name()).and_then(Value::as_str) {
        Some(word) => match Kind::read(word.as_bytes()) {
            Some(kind) => Ok(kind),
            None => Err(ReadFault::field(item)),
        },
        None => Err(ReadFault::field(item)),
    }
}

/// The verdict in this member. `Field` with the item where it is missing or no verdict's word.
pub fn verdict(object: &Value, item: Item) -> Result<Verdict, ReadFault>
    ensures { Gives result (needed item verdict_form (view object.now)) }
{
    match object.get(item.name()).and_then(Value::as_str) {
        Some(word) => match Verdict::read(word.as_bytes()) {
            Some(verdict) => Ok(verdict),
            None => Err(ReadFault::field(item)),
        },
        None => Err(ReadFault::field(item)),
    }
}

/// That the object has no other members than these; else `Field` with `extra`.
pub fn only(items: &[Item], object: &Value) -> Result<(), ReadFault>
    ensures { Gives result (only items.now (view object.now)) }
{
    if has_only(items, object) {
        Ok(())
    } else {
        Err(ReadFault::field(Item::Extra))
    }
}

/// That the object has no other members than these and those; else `Field` with `extra`.
pub fn only_of(these: &[Item], those: &[Item], object: &Value) -> Result<(), ReadFault>
    ensures { Gives result (only (these.now ++ those.now) (view object.now)) }
{
    if has_only_of(these, those, object) {
        Ok(())
    } else {
        Err(ReadFault::field(Item::Extra))
    }
}

fn has_only_of(these: &[Item], those: &[Item], object: &Value) -> bool
    ensures { result ≡ is_among (these.now ++ those.now) (as_object (view object.now)) }
{
    match object.as_object() {
        Some(members) => are_of(these, those, members),
        None => true,
    }
}

fn are_of(these: &[Item], those: &[Item], members: &Map<String, Value>) -> bool
    ensures { result
        ≡ list_all (λ key. names_any (these.now ++ those.now) (string_bytes key)) (keys members.now) }
{
    members
        .keys()
        .all(|key| names_either(these, those, key.as_str()))
}

fn names_either(these: &[Item], those: &[Item], name: &str) -> bool
    ensures { result ≡ names_any (these.now ++ those.now) name.now }
{
    names_any(these, name) || names_any(those, name)
}

/// Whether it has no other members than these.
pub fn has_only(items: &[Item], object: &Value) -> bool
    ensures { result ≡ is_among items.now (as_object (view object.now)) }
{
    match object.as_object() {
        Some(members) => are_among(items, members),
        None => true,
    }
}

fn are_among(items: &[Item], members: &Map<String, Value>) -> bool
    ensures { result ≡ list_all (λ key. names_any items.now (string_bytes key)) (keys members.now) }
{
    members.keys().all(|key| names_any(items, key.as_str()))
}

fn names_any(items: &[Item], name: &str) -> bool
    ensures { result ≡ names_any items.now name.now }
{
    items.iter().any(|item| name == item.name())
}
