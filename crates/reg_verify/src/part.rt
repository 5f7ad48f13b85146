//! The files of a published folder that are verified.
ghost use Rattle.std.specs.Prelude.{◌≡◌, IfOk, string_bytes};
ghost use Rattle.reg_verify.specs.Parts.{listing_place, place_of, registry_place};

use reg_core::text::Name;
use std::alloc::{AllocError, Global};

/// A file of a published folder that is verified.
#[derive(Clone, Copy)]
pub enum FolderPart {
    /// The history.
    History,
    /// The index for programs.
    Index,
    /// The JSON of a registry.
    Registry(Name),
    /// The listing of a registry.
    Listing(Name),
    /// The prefixes of the pool.
    Pool,
    /// The listing of the blocks.
    Blocks,
}

impl FolderPart {
    /// Its place, from the folder on. Only want of memory is an error.
    pub fn place(&self, alloc: Global) -> Result<String, AllocError>
        ensures { IfOk result (λ place. string_bytes place ≡ place_of self.now) }
    {
        match self {
            FolderPart::History => String::from_str(alloc, "changes.csv"),
            FolderPart::Index => String::from_str(alloc, "index.json"),
            FolderPart::Registry(name) => registry_place(alloc, *name),
            FolderPart::Listing(name) => listing_place(alloc, *name),
            FolderPart::Pool => String::from_str(alloc, "pool.json"),
            FolderPart::Blocks => String::from_str(alloc, "blocks.csv"),
        }
    }
}

fn registry_place(alloc: Global, name: Name) -> Result<String, AllocError>
    ensures { IfOk result (λ place. string_bytes place ≡ registry_place name) }
{
    let name = name.as_str();
    format!(in alloc; "registries/{name}.json")
}

fn listing_place(alloc: Global, name: Name) -> Result<String, AllocError>
    ensures { IfOk result (λ place. string_bytes place ≡ listing_place name) }
{
    let name = name.as_str();
    format!(in alloc; "registries/{name}.csv")
}
