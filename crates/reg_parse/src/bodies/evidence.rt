//! Reads what an applicant shows for an assignment.
ghost use Rattle.std.specs.Prelude.{◌≡◌};
ghost use Rattle.serde_json.specs.View.{view};
ghost use Rattle.reg_json.specs.Members.{Gives, member_in, number_form, optional};
ghost use Rattle.reg_parse.specs.Bodies.Rfc.{rfc_form, stream_form, track_form};
ghost use Rattle.reg_parse.specs.Bodies.Evidence.{evidence_of};

use reg_core::item::Item;
use reg_core::wire_refusal::ReadFault;
use reg_json::members;
use reg_ranges::evidence::{Evidence, Rfc, Stream, Track};
use serde_json::Value;
use std::alloc::Global;

/// The members that are evidence.
pub const EVIDENCE_ITEMS: [Item; 4] = [Item::Contact, Item::Specification, Item::Rfc, Item::Minute];

/// The evidence among the members of this object, or the first of them that has not its form.
#[tactic(auto, unfolding(crate::specs::Bodies::Evidence::evidence_of))]
pub fn read_evidence(alloc: Global, json: &Value) -> Result<Evidence, ReadFault>
    ensures { Gives result (evidence_of (view json.now)) }
{
    let contact = members::text_if_there(alloc, json, Item::Contact)?;
    let spec = members::text_if_there(alloc, json, Item::Specification)?;
    let rfc = rfc_if_there(json)?;
    let minute = members::text_if_there(alloc, json, Item::Minute)?;
    Ok(Evidence {
        contact,
        spec,
        rfc,
        minute,
    })
}

fn rfc_if_there(json: &Value) -> Result<Option<Rfc>, ReadFault>
    ensures { Gives result (optional Item.Rfc rfc_form (view json.now)) }
{
    match json.get(Item::Rfc.name()) {
        None => Ok(None),
        Some(member) => match read_rfc(member) {
            Some(rfc) => Ok(Some(rfc)),
            None => Err(ReadFault::field(Item::Rfc)),
        },
    }
}

#[tactic(auto, unfolding(crate::specs::Bodies::Rfc::rfc_form))]
fn read_rfc(json: &Value) -> Option<Rfc>
    ensures { result ≡ rfc_form (view json.now) }
{
    let number = number_in(json)?;
    let stream = stream_in(json)?;
    let track = track_in(json)?;
    if !members::has_only(&[Item::Number, Item::Stream, Item::Track], json) {
        return None;
    }
    Rfc::make(number, stream, track)
}

fn number_in(json: &Value) -> Option<u32>
    ensures { result ≡ member_in Item.Number number_form (view json.now) }
{
    members::number(json.get(Item::Number.name())?)
}

fn stream_in(json: &Value) -> Option<Stream>
    ensures { result ≡ member_in Item.Stream stream_form (view json.now) }
{
    stream_named(json.get(Item::Stream.name())?)
}

fn stream_named(json: &Value) -> Option<Stream>
    ensures { result ≡ stream_form (view json.now) }
{
    Stream::read(json.as_str()?.as_bytes())
}

fn track_in(json: &Value) -> Option<Track>
    ensures { result ≡ member_in Item.Track track_form (view json.now) }
{
    track_named(json.get(Item::Track.name())?)
}

fn track_named(json: &Value) -> Option<Track>
    ensures { result ≡ track_form (view json.now) }
{
    Track::read(json.as_str()?.as_bytes())
}
