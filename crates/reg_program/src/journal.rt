//! The job that prints the journal of an office.
ghost use Rattle.std.specs.Prelude.{◌≡◌, IfErr, IfOk, List, option_map};
ghost use Rattle.std.specs.String.{string_bytes};
ghost use Rattle.reg_core.specs.declared.journal.Act.{Act};
ghost use Rattle.reg_history.specs.Acts.{IsTextOfActs};
ghost use Rattle.reg_keeper.specs.Keeper.{all_acts};
ghost use Rattle.reg_program.specs.Journal.{IsOfActs, TellsActs, has_noted};
ghost use Rattle.reg_program.specs.Undone.{IsOfStoreOrPrinting};

use crate::asking::print;
use crate::faults::{JobFailure, Undone};
use reg_history::acts::ActsText;
use reg_history::chain::Chain;
use reg_keeper::keeper::Keeper;
use std::alloc::Global;
use std::io::Write;

/// Prints all acts of an office as CSV, each with its digest. Where digits of a digest were noted, and no
/// digest begins so, nothing is printed: `Journal`.
pub fn print_acts<K: Keeper, W: Write>(
    alloc: Global,
    keeper: &mut K,
    noted: &Option<String>,
    output: &mut W,
) -> Result<(), Undone>
    ensures told { TellsActs (λ acts. K.Holds keeper.new → acts ≡ all_acts (K.world keeper.old))
        (option_map string_bytes noted.now) (W.contents output.old) (W.contents output.new) result }
    ensures same { K.Holds keeper.new → K.world keeper.new ≡ K.world keeper.old }
    ensures premise { K.Holds keeper.new → K.Holds keeper.old }
    ensures why { IfErr result IsOfActs }
{
    let whole = text_of_acts(alloc, keeper)?;
    if !is_noted_in(&whole.chain, noted) {
        return Err(Undone::Fault(JobFailure::Journal));
    }
    print(output, whole.text.as_slice())
}

// The text of all acts, with the digest of each.
fn text_of_acts<K: Keeper>(alloc: Global, keeper: &mut K) -> Result<ActsText, Undone>
    ensures text { IfOk result (λ whole. (acts : List Act)
        × (K.Holds keeper.new → acts ≡ all_acts (K.world keeper.old))
        × IsTextOfActs acts whole.text.items whole.chain.digests.items) }
    ensures err { IfErr result IsOfStoreOrPrinting }
    ensures same { K.Holds keeper.new → K.world keeper.new ≡ K.world keeper.old }
    ensures premise { K.Holds keeper.new → K.Holds keeper.old }
{
    let acts = keeper.acts()?;
    Ok(ActsText::of(alloc, acts.as_slice())?)
}

// Whether a digest begins with the digits that were noted, if any were.
fn is_noted_in(chain: &Chain, noted: &Option<String>) -> bool
    ensures { result ≡ has_noted chain.now.digests.items (option_map string_bytes noted.now) }
{
    match noted {
        Some(digits) => chain.has_front(digits.as_bytes()),
        None => true,
    }
}
