//! Files of the folder `registries` that are of no registry of a history.
ghost use Rattle.std.specs.Prelude.{◌≡◌, ◌↔◌, ◌++◌, ◌≢◌, [], List, ℕ, IfOk, IfErr, IsTrue, MatchBool, MatchOption, None, map, option_map, string_bytes};
ghost use Rattle.std.specs.Option.{option_copied};
ghost use Rattle.reg_changes.specs.Said.{said_by};
ghost use Rattle.reg_verify.specs.Strays.{HasRegistry, IsFirstFrom, IsKnown, IsRegistryRange, IsRegistryOf, IsStray, IsStrayOf, Lists, TellsStray, range_at};
ghost use Rattle.reg_verify.specs.Verifying.{Finds, TellsWhy};

use crate::flaw::Unverified;
use crate::folder::Reads;
use reg_changes::change::{Class, Subject};
use reg_changes::field::Field;
use reg_changes::said::Said;
use std::alloc::{AllocError, Global};

/// The first file of the folder `registries` that is the JSON or the listing of a registry which a history
/// does not have; none where there is no such file. Each name is looked up once in the tree of what the
/// history says.
pub(crate) fn stray_in<F: Reads>(
    alloc: Global,
    folder: &F,
    said: &Said,
) -> Result<Option<String>, Unverified>
    ensures stray { IfOk result (λ stray. TellsStray (Lists F.Tells F.listed folder.now)
        (said_by said.now) (option_map string_bytes stray)) }
    ensures why { IfErr result (TellsWhy (Finds F.Tells F.held folder.now)
        (Lists F.Tells F.listed folder.now) None) }
{
    let files = folder.names(alloc)?;
    Ok(first_stray(alloc, said, files.as_slice())?)
}

// The first of these files that is stray.
fn first_stray(alloc: Global, said: &Said, files: &[String]) -> Result<Option<String>, AllocError>
    ensures { IfOk result (λ stray. IsStrayOf (said_by said.now) (map string_bytes files.now)
        (option_map string_bytes stray)) }
{
    for file in files {
        if is_stray(alloc, said, file.as_str())? {
            return Ok(Some(String::from_str(alloc, file.as_str())?));
        }
    }
    Ok(None)
}

// Whether a file of this name is of a registry that a history does not have.
fn is_stray(alloc: Global, said: &Said, file: &str) -> Result<bool, AllocError>
    ensures { IfOk result (λ stray. MatchBool stray (IsStray (said_by said.now) file.now)
        (IsKnown (said_by said.now) file.now)) }
{
    match registry_of(file) {
        Some(name) => {
            let has = has_registry(alloc, said, name)?;
            Ok(!has)
        }
        None => Ok(false),
    }
}

// The name of the registry of which a file is the JSON or the listing, if it is either.
fn registry_of(file: &str) -> Option<&str>
    ensures { IsRegistryOf file.now (option_map (λ name. name.now) result) }
{
    match before(file, ".json") {
        Some(name) => Some(name),
        None => before(file, ".csv"),
    }
}

// What comes before this ending of a text, where it ends so.
fn before<'a>(text: &'a str, ending: &str) -> Option<&'a str>
    ensures { MatchOption result ((front : List ℕ) → text.now ≢ front ++ ending.now)
        (λ front. text.now ≡ front.now ++ ending.now) }
{
    text.strip_suffix(ending)
}

// Whether a history has the registry of this name. Its ranges come first of all that is said of it.
fn has_registry(alloc: Global, said: &Said, name: &str) -> Result<bool, AllocError>
    ensures { IfOk result (λ has. IsTrue has ↔ HasRegistry (said_by said.now) name.now) }
{
    let least = least_range(alloc, name)?;
    match first_from(said, &least) {
        Some(first) => Ok(is_range_in(first, name)),
        None => Ok(false),
    }
}

// The subject that comes before each range of a registry.
fn least_range(alloc: Global, name: &str) -> Result<Subject, AllocError>
    ensures { IfOk result (λ least. least ≡ range_at name.now []) }
{
    Ok(Subject {
        registry: Field::new(alloc, name)?,
        class: Class::Range,
        value: Field::new(alloc, "")?,
    })
}

// The first subject from this one on.
fn first_from<'a>(said: &'a Said, from: &Subject) -> Option<&'a Subject>
    ensures { IsFirstFrom said.now from.now (option_copied result) }
{
    let (first, _) = said.range(from..).next()?;
    Some(first)
}

// Whether a subject is a range of the registry of this name.
fn is_range_in(subject: &Subject, name: &str) -> bool
    ensures { IsTrue result ↔ IsRegistryRange name.now subject.now }
{
    match subject.class {
        Class::Range => subject.registry.as_str() == name,
        Class::Entry | Class::Prefix | Class::Block => false,
    }
}
