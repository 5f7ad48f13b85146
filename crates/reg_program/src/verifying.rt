//! The job that verifies a published folder.
ghost use Rattle.std.specs.Prelude.{◌≡◌, IfOk, IfErr, OnOk, option_map, string_bytes};
ghost use Rattle.std.specs.Io.KnownBytes.{Appends};
ghost use Rattle.std.specs.Option.{option_copied};
ghost use Rattle.reg_verify.specs.Strays.{Lists};
ghost use Rattle.reg_verify.specs.Verifying.{Finds, verified_text};
ghost use Rattle.reg_program.specs.Undone.{IsOfPrinting};
ghost use Rattle.reg_program.specs.Verifying.{IsSaidOf, IsUnverified, IsVerifiedBy, PrintsVerified};
ghost use Rattle.reg_program.specs.declared.faults.JobFailure.TheVariants.{Write};
ghost use Rattle.reg_program.specs.declared.faults.Undone.TheVariants.{Fault};

use crate::asking::print;
use crate::faults::{JobFailure, Undone};
use reg_history::chain::Chain;
use reg_verify::flaw::Unverified;
use reg_verify::folder::{Reads, SystemFolder};
use reg_verify::verifying::{verified_text, verify_in};
use std::alloc::{AllocError, Global};
use std::io::Write;

/// Verifies the published folder at a path, and prints how many changes its history has, and the digest of
/// the last one. `History` where its files are not what its history says, or its history is not whole, or
/// has no digest that begins with the digits that were noted, if any were, or where a file is of no registry
/// of the history; a second line says which.
pub fn verify<W: Write>(
    rt: &HostRuntime,
    path: &str,
    noted: &Option<String>,
    output: &mut W,
) -> Result<(), Undone>
    ensures { IsVerifiedBy (option_map string_bytes noted.now) (W.contents output.old)
        (W.contents output.new) result }
{
    verify_files(rt.alloc(), &SystemFolder { rt, path }, noted, output)
}

/// As `verify`, of a folder whose files are read.
pub fn verify_files<F: Reads, W: Write>(
    alloc: Global,
    folder: &F,
    noted: &Option<String>,
    output: &mut W,
) -> Result<(), Undone>
    ensures ok { OnOk result (PrintsVerified (Finds F.Tells F.held folder.now)
        (Lists F.Tells F.listed folder.now) (option_map string_bytes noted.now)
        (W.contents output.old) (W.contents output.new)) }
    ensures err { IfErr result (IsUnverified (Finds F.Tells F.held folder.now)
        (Lists F.Tells F.listed folder.now) (option_map string_bytes noted.now)) }
    ensures silent { IfErr result (λ why.
        (why ≡ Fault Write → ⊥) → W.contents output.new ≡ W.contents output.old) }
{
    match verify_in(alloc, folder, digits_of(noted)) {
        Ok(chain) => print_verified(alloc, &chain, output),
        Err(why) => Err(undone(alloc, why)?),
    }
}

// The digits that were noted, if any were.
fn digits_of(noted: &Option<String>) -> Option<&[u8]>
    ensures { option_copied result ≡ option_map string_bytes noted.now }
{
    match noted {
        Some(text) => Some(text.as_bytes()),
        None => None,
    }
}

fn print_verified<W: Write>(alloc: Global, chain: &Chain, output: &mut W) -> Result<(), Undone>
    ensures ok { OnOk result (Appends (W.contents output.old) (W.contents output.new)
        (verified_text chain.now.digests.items)) }
    ensures err { IfErr result IsOfPrinting }
    ensures silent { IfErr result (λ why.
        (why ≡ Fault Write → ⊥) → W.contents output.new ≡ W.contents output.old) }
{
    let text = verified_text(alloc, chain)?;
    print(output, text.as_slice())
}

// Why a folder is not verified, as a job says it.
fn undone(alloc: Global, why: Unverified) -> Result<Undone, AllocError>
    ensures { IfOk result (IsSaidOf why) }
{
    match why {
        Unverified::Memory => Ok(Undone::Fault(JobFailure::Memory)),
        Unverified::Read => Ok(Undone::Fault(JobFailure::Read)),
        Unverified::Large => Ok(Undone::Fault(JobFailure::Large)),
        Unverified::Flawed(flaw) => Ok(Undone::Explained(JobFailure::History, flaw.text(alloc)?)),
    }
}
