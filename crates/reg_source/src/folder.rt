//! Where files are published.
ghost use Rattle.std.specs.Prelude.{◌≡◌, ◌≤◌, IfOk, IfSome, OnOk, OnErr, length, option_map};
ghost use Rattle.sha2.specs.Sha256.{sha256};
ghost use Rattle.reg_site.specs.Files.{path_of};

use crate::unpublished::Unpublished;
use reg_pages::portions::Portions;
use reg_site::files::File;
use std::alloc::Global;

/// How many bytes of a file are read at most.
pub const MOST_READ_BYTES: usize = 268_435_456;

/// A folder that files are published in.
pub trait Folder {
    ghost use Rattle.std.specs.Prelude.{ℕ, List, Option, None};

    /// A file at a place in it is published with these bytes. Nothing is known of it where it does not
    /// tell.
    ghost Puts: { Self → Self → List ℕ → List ℕ → Type 0 } = { λ _ _ _ _. Unit {0} };

    /// A file at a place in it could not be published with these bytes.
    ghost Leaves: { Self → Self → List ℕ → List ℕ → Type 0 } = { λ _ _ _ _. Unit {0} };

    /// Whether it is known which bytes a file in it has.
    ghost Tells: { Type 0 } = { ⊥ };

    /// The bytes of the file at a place in it, if there is one.
    ghost held: { Self → List ℕ → Option (List ℕ) } = { λ _ _. None };

    /// Reads a file of a site; none where it is not there. `Read` where it cannot be read, and `Large`
    /// where it has more than 268,435,456 bytes.
    fn read(&self, alloc: Global, file: File) -> Result<Option<Vec<u8>>, Unpublished>
        ensures all { Tells → IfOk result
            (λ found. option_map (λ v. v.items) found ≡ held self.now (path_of file)) }
        ensures most { IfOk result (λ found. IfSome found (λ v. length v.items ≤ 268435456)) };

    /// Publishes a file of a site, whole: whoever reads it, at any time, reads all of what was there or
    /// all of these bytes, and from now on these. They are taken in portions, and hashed as they are taken: gives
    /// their SHA-256. Where they are there already nothing is written. `Write` where it cannot be written; what
    /// was there stays then, or the new bytes are there whole.
    fn publish<P: Portions>(&mut self, file: File, bytes: &mut P) -> Result<[u8; 32], Unpublished>
        ensures done { OnOk result (Puts self.old self.new (path_of file) (P.rest bytes.old)) }
        ensures hash { IfOk result (λ hash. hash ≡ sha256 (P.rest bytes.old)) }
        ensures failed { OnErr result (Leaves self.old self.new (path_of file) (P.rest bytes.old)) };
}
