//! Where the files of a site are.
ghost use Rattle.std.specs.Prelude.{IfOk};

use std::alloc::AllocError;
use std::io::Read;

/// A file that was found.
#[derive(Drop)]
pub struct SiteFile<C> {
    /// How many bytes it has.
    pub length: usize,
    /// What is read of it.
    pub content: C,
}

/// The folder of a site.
pub trait SiteFiles {
    ghost use Rattle.std.specs.Prelude.{ℕ, List, Option};
    ghost use Rattle.reg_folder.specs.declared.files.SiteFile.{SiteFile as OfSite};

    /// What is read of a file.
    type Content: Read + Drop;

    /// From before to after, this is what was found at a path in the folder. Nothing is known of it where the
    /// folder does not tell.
    ghost Finds: { Self → Self → List ℕ → Option (OfSite Self.Content) → Type 0 } = { λ _ _ _ _. Unit {0} };

    /// The file at a path in the folder, if a file is there that may be sent. Only want of memory is an error.
    fn find(&mut self, path: &str) -> Result<Option<SiteFile<Self::Content>>, AllocError>
        ensures { IfOk result (Finds self.old self.new path.now) };
}
