//! The files of a site, and their places.
ghost use Rattle.std.specs.Prelude.{◌≡◌, string_bytes, IfOk};
ghost use Rattle.reg_site.specs.Files.{folder_of, path_of, stem_of, suffix_of};

use reg_blocks::size::Size;
use reg_core::text::Name;
use std::alloc::{AllocError, Global};

/// A file of a site.
#[derive(Clone, Copy)]
pub enum File {
    /// The page of a registry.
    RegistryPage(Name),
    /// The listing of a registry, as an office answers it (CSV).
    RegistryCsv(Name),
    /// A registry, as an office answers it (JSON).
    RegistryTree(Name),
    /// A registry in the form in which IANA publishes registries (XML).
    RegistryRecords(Name),
    /// The page of all blocks that were given.
    BlocksPage,
    /// The listing of all blocks that were given, as an office answers it (CSV).
    BlocksListing,
    /// The blocks of one size, in the form in which IEEE publishes them (CSV).
    Assignments(Size),
    /// The prefixes of the pool, as an office answers them (JSON).
    Pool,
    /// How pages look (CSS).
    Style,
    /// The history of the registers, as `reg_history` has it (CSV).
    Changes,
    /// The page of the last changes.
    ChangesPage,
    /// The feed of the last changes (Atom, RFC 4287).
    ChangesFeed,
    /// The first page. The moment of the publication stands on it and in the next one alone.
    Index,
    /// The index for programs (JSON).
    IndexTree,
    /// The SHA-256 of each other file, as `sha256sum -c` reads it.
    Sums,
}

impl File {
    /// Its place, from the folder of the site on: `index.html`, or `registries/NAME.html`.
    pub fn path(&self, alloc: Global) -> Result<String, AllocError>
        ensures { IfOk result (λ text. string_bytes text ≡ path_of self.now) }
    {
        let mut path = String::from_str(alloc, self.folder())?;
        path.push_str(self.stem())?;
        path.push_str(self.suffix())?;
        Ok(path)
    }

    /// The folder that it lies in, with a slash after it, or nothing.
    pub fn folder(&self) -> &'static str
        ensures { result.now ≡ folder_of self.now }
    {
        match self {
            File::RegistryPage(_)
            | File::RegistryCsv(_)
            | File::RegistryTree(_)
            | File::RegistryRecords(_) => "registries/",
            File::BlocksPage
            | File::BlocksListing
            | File::Assignments(_)
            | File::Pool
            | File::Style
            | File::Changes
            | File::ChangesPage
            | File::ChangesFeed
            | File::Index
            | File::IndexTree
            | File::Sums => "",
        }
    }

    fn stem(&self) -> &str
        ensures { result.now ≡ stem_of self.now }
    {
        match self {
            File::RegistryPage(name)
            | File::RegistryCsv(name)
            | File::RegistryTree(name)
            | File::RegistryRecords(name) => name.as_str(),
            File::BlocksPage | File::BlocksListing => "blocks",
            File::Assignments(Size::MaL) => "oui",
            File::Assignments(Size::MaM) => "mam",
            File::Assignments(Size::MaS) => "oui36",
            File::Pool => "pool",
            File::Style => "style",
            File::Changes | File::ChangesPage | File::ChangesFeed => "changes",
            File::Index | File::IndexTree => "index",
            File::Sums => "SHA256SUMS",
        }
    }

    // What follows, from the dot on; the sums have none.
    fn suffix(&self) -> &'static str
        ensures { result.now ≡ suffix_of self.now }
    {
        match self {
            File::RegistryPage(_) | File::BlocksPage | File::ChangesPage | File::Index => ".html",
            File::RegistryCsv(_) | File::BlocksListing | File::Assignments(_) | File::Changes =>
                ".csv",
            File::RegistryTree(_) | File::Pool | File::IndexTree => ".json",
            File::RegistryRecords(_) => ".xml",
            File::ChangesFeed => ".atom",
            File::Style => ".css",
            File::Sums => "",
        }
    }
}
