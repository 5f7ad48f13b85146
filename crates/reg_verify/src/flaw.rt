//! Why a published folder is not verified.
ghost use Rattle.std.specs.Prelude.{◌≡◌, IfOk, string_bytes};
ghost use Rattle.std.specs.List.{list_all};
ghost use Rattle.reg_verify.specs.Flaws.{flaw_text, is_printable, listing_flaw, missing_text, misspelt_text, plain, stray_text, subject_file, subject_text, unread_as, unreadable_as};
ghost use Rattle.reg_verify.specs.declared.flaw.Unverified.TheVariants as un;

use crate::folder::UnreadFile;
use crate::part::FolderPart;
use reg_changes::change::{Class, Subject};
use reg_core::text::Name;
use reg_history::history::Unreadable;
use std::alloc::{AllocError, Global};

/// Why a published folder is not verified.
#[derive(Drop)]
pub enum Unverified {
    /// There was no memory.
    Memory,
    /// A file could not be read.
    Read,
    /// A file has more than 268,435,456 bytes.
    Large,
    /// This is wrong in it.
    Flawed(FolderFlaw),
}

/// What is wrong in a published folder.
#[derive(Drop)]
pub enum FolderFlaw {
    /// This file is not there.
    Missing(FolderPart),
    /// The history does not begin with its header.
    Header,
    /// The record of this number of the history is not as it has to be after those before it.
    Record(u64),
    /// The history has a registry whose name is none.
    Name,
    /// The index names a record that the history does not have.
    Index,
    /// The index names no record.
    Unnamed,
    /// This file is not spelled as an office spells its answer.
    Misspelt(FolderPart),
    /// The listing of this registry is not that of its JSON.
    Listing(Name),
    /// This file of the folder `registries` is the JSON or the listing of a registry that the history does
    /// not have.
    Stray(String),
    /// This subject is published otherwise than the history says, or is in one of the two alone.
    Subject(Subject),
    /// The digest that was noted is given by fewer than 16 digits.
    Short,
    /// No digest of the history begins with the digits that were noted.
    Digest,
}

impl FolderFlaw {
    /// What is said of it to people. Only want of memory is an error.
    pub fn text(&self, alloc: Global) -> Result<String, AllocError>
        ensures { IfOk result (λ text. string_bytes text ≡ flaw_text self.now) }
    {
        match self {
            FolderFlaw::Missing(file) => missing_text(alloc, *file),
            FolderFlaw::Header => {
                String::from_str(
                    alloc,
                    "changes.csv does not begin with the header of a history",
                )
            }
            FolderFlaw::Record(number) => format!(in alloc;
                "record {number} of changes.csv is wrong"
            ),
            FolderFlaw::Name => String::from_str(
                alloc,
                "changes.csv has a registry whose name is none",
            ),
            FolderFlaw::Index => {
                String::from_str(
                    alloc,
                    "index.json names a record that changes.csv does not have",
                )
            }
            FolderFlaw::Misspelt(file) => misspelt_text(alloc, *file),
            FolderFlaw::Unnamed => String::from_str(alloc, "index.json names no record"),
            FolderFlaw::Listing(name) => listing_text(alloc, *name),
            FolderFlaw::Stray(file) => stray_text(alloc, file.as_str()),
            FolderFlaw::Subject(subject) => subject_text(alloc, subject),
            FolderFlaw::Short => String::from_str(alloc, "give at least 16 digits of the digest"),
            FolderFlaw::Digest => {
                String::from_str(alloc, "no digest of changes.csv begins with these digits")
            }
        }
    }
}

impl From<AllocError> for Unverified {
    ghost from_gives = { λ _ why. why ≡ un.Memory };

    fn from(_error: AllocError) -> Unverified {
        Unverified::Memory
    }
}

impl From<FolderFlaw> for Unverified {
    ghost from_gives = { λ flaw why. why ≡ un.Flawed flaw };

    fn from(flaw: FolderFlaw) -> Unverified {
        Unverified::Flawed(flaw)
    }
}

impl From<Unreadable> for Unverified {
    ghost from_gives = { λ fault why. why ≡ unreadable_as fault };

    fn from(fault: Unreadable) -> Unverified {
        match fault {
            Unreadable::Memory => Unverified::Memory,
            Unreadable::Header => Unverified::Flawed(FolderFlaw::Header),
            Unreadable::Wrong(number) => Unverified::Flawed(FolderFlaw::Record(number)),
        }
    }
}

impl From<UnreadFile> for Unverified {
    ghost from_gives = { λ unread why. why ≡ unread_as unread };

    fn from(why: UnreadFile) -> Unverified {
        match why {
            UnreadFile::Memory => Unverified::Memory,
            UnreadFile::Read => Unverified::Read,
            UnreadFile::Large => Unverified::Large,
        }
    }
}

fn missing_text(alloc: Global, file: FolderPart) -> Result<String, AllocError>
    ensures { IfOk result (λ text. string_bytes text ≡ missing_text file) }
{
    let place = file.place(alloc)?;
    format!(in alloc; "{place} is not there")
}

fn misspelt_text(alloc: Global, file: FolderPart) -> Result<String, AllocError>
    ensures { IfOk result (λ text. string_bytes text ≡ misspelt_text file) }
{
    let place = file.place(alloc)?;
    format!(in alloc; "{place} is not as publish writes it")
}

fn listing_text(alloc: Global, name: Name) -> Result<String, AllocError>
    ensures { IfOk result (λ text. string_bytes text ≡ listing_flaw name) }
{
    let name = name.as_str();
    format!(in alloc; "registries/{name}.csv is not the listing of registries/{name}.json")
}

fn stray_text(alloc: Global, file: &str) -> Result<String, AllocError>
    ensures { IfOk result (λ text. string_bytes text ≡ stray_text file.now) }
{
    let file = plain(file);
    format!(in alloc; "registries/{file} is of no registry of the history")
}

fn subject_text(alloc: Global, subject: &Subject) -> Result<String, AllocError>
    ensures { IfOk result (λ text. string_bytes text ≡ subject_text subject.now) }
{
    let file = subject_file(alloc, subject)?;
    let value = plain(subject.value.as_str());
    format!(in alloc; "{file} differs from the history at {value}")
}

// The file that a subject is in.
fn subject_file(alloc: Global, subject: &Subject) -> Result<String, AllocError>
    ensures { IfOk result (λ text. string_bytes text ≡ subject_file subject.now) }
{
    match subject.class {
        Class::Range | Class::Entry => {
            let registry = plain(subject.registry.as_str());
            format!(in alloc; "registries/{registry}.json")
        }
        Class::Prefix => String::from_str(alloc, "pool.json"),
        Class::Block => String::from_str(alloc, "blocks.csv"),
    }
}

/// A text of printable ASCII as it is; a question mark for any other, since a terminal might obey it.
pub fn plain(text: &str) -> &str
    ensures { result.now ≡ plain text.now }
{
    if is_plain(text) { text } else { "?" }
}

fn is_plain(text: &str) -> bool
    ensures { result ≡ list_all is_printable text.now }
{
    text.as_bytes().iter().all(|b| 32 <= *b && *b < 127)
}
