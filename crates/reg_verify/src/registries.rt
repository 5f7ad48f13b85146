//! What the files of a published folder publish, as facts.
ghost use Rattle.std.specs.Prelude.{true, List, Some, None, OnOk, IfOk, IfErr, MatchBool};
ghost use Rattle.std.specs.Option.{option_copied};
ghost use Rattle.reg_changes.specs.Said.{Says, said_by};
ghost use Rattle.reg_changes.specs.declared.change.HistoryRecord.{HistoryRecord};
ghost use Rattle.reg_print.specs.Listing.{listing_text};
ghost use Rattle.reg_verify.specs.declared.part.FolderPart.TheVariants as part;
ghost use Rattle.reg_history.specs.Chain.{says};
ghost use Rattle.reg_verify.specs.Strays.{AllHaveNames, Lists};
ghost use Rattle.reg_verify.specs.Verifying.{AddsBlocks, AddsName, AddsPage, AddsPool, AreFactsOf, AreFactsOfPages, Finds, HasHistory, IsNameless, IsNamelessAt, IsNewRange, IsOfLast, IsPageIn, TellsWhy};

use crate::files::{blocks_in, bytes_of, page_in, pool_in, told_in};
use crate::flaw::{FolderFlaw, Unverified};
use crate::folder::Reads;
use crate::part::FolderPart;
use reg_changes::change::{Class, Fact, Subject};
use reg_changes::said::Said;
use reg_core::command::PublicCommand;
use reg_core::page::Page;
use reg_core::text::Name;
use reg_history::published::{add_blocks, add_page, add_prefixes};
use reg_site::listing::RegistryCsv;
use reg_source::comparing::gives_just;
use std::alloc::Global;

/// All that is published by the files of a folder, of which the registries are those that a history names.
pub(crate) fn facts_in<F: Reads>(
    alloc: Global,
    folder: &F,
    said: &Said,
) -> Result<Vec<Fact>, Unverified>
    ensures facts { IfOk result
        (λ facts. AreFactsOf (Finds F.Tells F.held folder.now) facts.items) }
    ensures named { OnOk result (AllHaveNames (said_by said.now)) }
    ensures why { IfErr result (λ why. (records : List HistoryRecord)
        → HasHistory (Finds F.Tells F.held folder.now) records
        → Says said.now (says records)
        → TellsWhy (Finds F.Tells F.held folder.now)
        (Lists F.Tells F.listed folder.now) None why) }
{
    let names = names_in(alloc, said)?;
    let mut facts = registries_in(alloc, folder, names.as_slice())?;
    add_pool(alloc, folder, &mut facts)?;
    add_listed(alloc, folder, &mut facts)?;
    Ok(facts)
}

// The names of the registries of a history, each once, in order. `Name` where one is none.
fn names_in(alloc: Global, said: &Said) -> Result<Vec<Name>, Unverified>
    ensures named { OnOk result (AllHaveNames (said_by said.now)) }
    ensures why { IfErr result (IsNameless (said_by said.now)) }
{
    let mut names = Vec::new(alloc);
    for subject in said.keys() {
        if is_new(names.last(), subject) {
            push_name(&mut names, subject)?;
        }
    }
    Ok(names)
}

// Whether a subject is a range of another registry than the last.
fn is_new(last: Option<&Name>, subject: &Subject) -> bool
    ensures { MatchBool result (IsNewRange (option_copied last.entry) subject.now)
        (IsOfLast (option_copied last.entry) subject.now) }
{
    match (subject.class, last) {
        (Class::Range, Some(name)) => name.as_str() != subject.registry.as_str(),
        (Class::Range, None) => true,
        _ => false,
    }
}

// Adds the name of the registry that a subject is of.
fn push_name(names: &mut Vec<Name>, subject: &Subject) -> Result<(), Unverified>
    ensures named { OnOk result (AddsName subject.now names.old.items names.new.items) }
    ensures why { IfErr result (IsNamelessAt subject.now) }
{
    match Name::read(subject.registry.as_str().as_bytes()) {
        Some(name) => {
            if names.push(name).is_err() {
                return Err(Unverified::Memory);
            }
            Ok(())
        }
        None => Err(Unverified::Flawed(FolderFlaw::Name)),
    }
}

// What the registries of these names publish.
fn registries_in<F: Reads>(
    alloc: Global,
    folder: &F,
    names: &[Name],
) -> Result<Vec<Fact>, Unverified>
    ensures facts { IfOk result
        (λ facts. AreFactsOfPages (Finds F.Tells F.held folder.now) facts.items) }
    ensures why { IfErr result (TellsWhy (Finds F.Tells F.held folder.now)
        (Lists F.Tells F.listed folder.now) None) }
{
    let mut facts = Vec::new(alloc);
    for name in names {
        add_registry(alloc, folder, *name, &mut facts)?;
    }
    Ok(facts)
}

// Adds what a registry publishes.
fn add_registry<F: Reads>(
    alloc: Global,
    folder: &F,
    name: Name,
    facts: &mut Vec<Fact>,
) -> Result<(), Unverified>
    ensures facts { OnOk result
        (AddsPage (Finds F.Tells F.held folder.now) facts.old.items facts.new.items) }
    ensures why { IfErr result (TellsWhy (Finds F.Tells F.held folder.now)
        (Lists F.Tells F.listed folder.now) None) }
{
    let told = told_in(
        alloc,
        folder,
        &FolderPart::Registry(name),
        &PublicCommand::Registry(name),
    )?;
    let page = page_in(&told)?;
    find_listing(alloc, folder, name, page)?;
    Ok(add_page(alloc, facts, page)?)
}

// Adds what the pool publishes.
fn add_pool<F: Reads>(alloc: Global, folder: &F, facts: &mut Vec<Fact>) -> Result<(), Unverified>
    ensures facts { OnOk result
        (AddsPool (Finds F.Tells F.held folder.now) facts.old.items facts.new.items) }
    ensures why { IfErr result (TellsWhy (Finds F.Tells F.held folder.now)
        (Lists F.Tells F.listed folder.now) None) }
{
    let told = told_in(alloc, folder, &FolderPart::Pool, &PublicCommand::PoolList)?;
    Ok(add_prefixes(alloc, facts, pool_in(&told)?.prefixes())?)
}

// Adds which blocks are published.
fn add_listed<F: Reads>(alloc: Global, folder: &F, facts: &mut Vec<Fact>) -> Result<(), Unverified>
    ensures facts { OnOk result
        (AddsBlocks (Finds F.Tells F.held folder.now) facts.old.items facts.new.items) }
    ensures why { IfErr result (TellsWhy (Finds F.Tells F.held folder.now)
        (Lists F.Tells F.listed folder.now) None) }
{
    let told = told_in(
        alloc,
        folder,
        &FolderPart::Blocks,
        &PublicCommand::BlocksCsv,
    )?;
    Ok(add_blocks(alloc, facts, blocks_in(&told)?)?)
}

// That the listing of a registry is that of its page.
fn find_listing<F: Reads>(
    alloc: Global,
    folder: &F,
    name: Name,
    page: &Page,
) -> Result<(), Unverified>
    ensures found { OnOk result (Finds F.Tells F.held folder.now (part.Listing name)
        (Some (listing_text page.now))) }
    ensures why { IfErr result (λ why. IsPageIn (Finds F.Tells F.held folder.now) name page.now
        → TellsWhy (Finds F.Tells F.held folder.now)
        (Lists F.Tells F.listed folder.now) None why) }
{
    let bytes = bytes_of(alloc, folder, &FolderPart::Listing(name))?;
    let mut listing = RegistryCsv::of(alloc, page)?;
    if gives_just(alloc, &mut listing, bytes.as_slice())? {
        Ok(())
    } else {
        Err(Unverified::Flawed(FolderFlaw::Listing(name)))
    }
}
