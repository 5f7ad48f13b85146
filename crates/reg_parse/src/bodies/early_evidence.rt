//! Reads what an applicant shows for an early allocation.
ghost use Rattle.serde_json.specs.View.{view};
ghost use Rattle.reg_json.specs.Members.{Gives};
ghost use Rattle.reg_parse.specs.Bodies.EarlyEvidence.{early_evidence_of};

use reg_core::item::Item;
use reg_core::wire_refusal::ReadFault;
use reg_early::evidence::EarlyEvidence;
use reg_json::members;
use serde_json::Value;
use std::alloc::Global;

/// The members that are evidence for an early allocation.
pub const EARLY_EVIDENCE_ITEMS: [Item; 6] = [
    Item::Draft,
    Item::Stable,
    Item::Interest,
    Item::Chair,
    Item::Director,
    Item::WillBeRfc,
];

/// The evidence among the members of this object, or the first of them that has not its form.
#[tactic(auto, unfolding(crate::specs::Bodies::EarlyEvidence::early_evidence_of))]
pub fn read_early_evidence(alloc: Global, json: &Value) -> Result<EarlyEvidence, ReadFault>
    ensures { Gives result (early_evidence_of (view json.now)) }
{
    Ok(EarlyEvidence {
        draft: members::text_if_there(alloc, json, Item::Draft)?,
        stable: members::truth_if_there(json, Item::Stable)?,
        interest: members::truth_if_there(json, Item::Interest)?,
        chair: members::text_if_there(alloc, json, Item::Chair)?,
        director: members::text_if_there(alloc, json, Item::Director)?,
        will_be_rfc: members::truth_if_there(json, Item::WillBeRfc)?,
    })
}
