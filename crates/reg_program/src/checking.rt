//! The job that says whether an office is well kept, and counts what is in it.
ghost use Rattle.std.specs.Prelude.{◌≡◌, IfOk, IfErr};
ghost use Rattle.std.specs.String.{string_bytes};
ghost use Rattle.reg_program.specs.Checking.{IsChecked, IsUnchecked, counts_text};
ghost use Rattle.reg_program.specs.Checking.{held_text as text_of_held};
ghost use Rattle.reg_program.specs.Checking.{published_text as text_of_published};
ghost use Rattle.reg_program.specs.Checking.{requests_text as text_of_requests};
ghost use Rattle.reg_program.specs.Doing.{Does};

use crate::asking::print;
use crate::faults::Undone;
use crate::tokens::refused_as;
use reg_core::counts::Counts;
use reg_core::refusal::Refusal;
use reg_early::day::day_of;
use reg_keeper::keeper::Keeper;
use reg_office::{AllCounts, Office, RequestCounts};
use std::alloc::{AllocError, Global};
use std::io::Write;

/// Prints the version of an office that was found well kept, and how many rows of each kind it has
/// on the day of a moment. `Refused` where the moment is none of the office's clock.
pub fn check_in<K: Keeper, W: Write>(
    alloc: Global,
    office: &mut Office<K>,
    version: i64,
    moment: u64,
    output: &mut W,
) -> Result<(), Undone>
    ensures does { Does K.world K.Holds K.Sound K.FAILS office.old office.new result
        (λ old new. IsChecked version moment (W.contents output.old) (W.contents output.new)
        old new)
        (λ old new why. new ≡ old) }
    ensures looks { K.Holds office.new → K.world office.new ≡ K.world office.old }
    ensures why { IfErr result (IsUnchecked moment) }
{
    let Some(today) = day_of(moment) else {
        return Err(refused_as(alloc, Refusal::Clock)?);
    };
    let counts = office.count(moment, today)?;
    let text = text_of(alloc, version, &counts)?;
    print(output, text.as_bytes())
}

/// The version, that the office is well kept, and each count, on lines of their own.
fn text_of(alloc: Global, version: i64, counts: &AllCounts) -> Result<String, AllocError>
    ensures { IfOk result (λ text. string_bytes text ≡ counts_text version counts.now) }
{
    let published = published_text(alloc, &counts.others)?;
    let requests = requests_text(alloc, &counts.requests)?;
    let held = held_text(alloc, &counts.others)?;
    let acts = counts.acts;
    format!(in alloc; "version {version}\nwell kept\n{published}{requests}{held}acts {acts}\n")
}

fn published_text(alloc: Global, counts: &Counts) -> Result<String, AllocError>
    ensures { IfOk result (λ text. string_bytes text ≡ text_of_published counts.now) }
{
    let registries = counts.registries;
    let entries = counts.entries.all;
    let temporary = counts.entries.temporary;
    let expired = counts.entries.expired;
    let held = counts.entries.held;
    format!(in alloc;
        "registries {registries}\nentries {entries}\ntemporary {temporary}\nexpired {expired}\nheld {held}\n"
    )
}

fn requests_text(alloc: Global, counts: &RequestCounts) -> Result<String, AllocError>
    ensures { IfOk result (λ text. string_bytes text ≡ text_of_requests counts.now) }
{
    let requests = counts.all;
    let pending = counts.pending;
    let approved = counts.approved;
    let declined = counts.declined;
    let withdrawn = counts.withdrawn;
    format!(in alloc;
        "requests {requests}\npending {pending}\napproved {approved}\ndeclined {declined}\nwithdrawn {withdrawn}\n"
    )
}

fn held_text(alloc: Global, counts: &Counts) -> Result<String, AllocError>
    ensures { IfOk result (λ text. string_bytes text ≡ text_of_held counts.now) }
{
    let caps = counts.caps.all;
    let valid = counts.caps.valid;
    let prefixes = counts.prefixes;
    let blocks = counts.blocks;
    let agents = counts.agents;
    format!(in alloc;
        "capabilities {caps}\nvalid {valid}\nprefixes {prefixes}\nblocks {blocks}\nagents {agents}\n"
    )
}
