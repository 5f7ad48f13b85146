//! The sums of all files, as `sha256sum` reads them.
ghost use Rattle.std.specs.Prelude.{◌≡◌, [], string_bytes, IfOk, List, OnOk, ℕ};
ghost use Rattle.hex.specs.Hex.{encode_lower};
ghost use Rattle.sha2.specs.Sha256.{sha256};
ghost use Rattle.reg_site.specs.Sums.{entries_of, lines_of, sum_line, with_sum};

use reg_changes::field::Field;
use std::alloc::{AllocError, Global};
use std::collections::BTreeMap;

/// The digests of files, by the places of these.
#[derive(Drop)]
pub struct Sums {
    digests: BTreeMap<Field, Field>,
}

impl Sums {
    /// Those of no file.
    pub fn new(alloc: Global) -> Self
        ensures { entries_of result ≡ [] }
    {
        Sums {
            digests: BTreeMap::new(alloc),
        }
    }

    /// Adds the SHA-256 of the file at a place, from the folder of the site on. Only want of memory is an
    /// error.
    pub fn add(&mut self, alloc: Global, path: &str, hash: &[u8; 32]) -> Result<(), AllocError>
        ensures { OnOk result ((bytes : List ℕ) → hash.now ≡ sha256 bytes
            → entries_of self.new ≡ with_sum (entries_of self.old) path.now bytes) }
    {
        let path = Field::new(alloc, path)?;
        let digest = digits_of(alloc, hash)?;
        self.digests.insert(path, digest)?;
        Ok(())
    }

    /// A line for each file, by name, as `sha256sum -c` reads it. Only want of memory is an error.
    pub fn text(mut self, alloc: Global) -> Result<Vec<u8>, AllocError>
        ensures { IfOk result (λ v. v.items ≡ lines_of (entries_of self)) }
    {
        let mut out = Vec::new(alloc);
        while let Some((path, digest)) = self.digests.pop_first() {
            let line = sum_line(alloc, path.as_str(), digest.as_str())?;
            out.extend_from_slice(line.as_bytes())?;
        }
        Ok(out)
    }
}

fn sum_line(alloc: Global, path: &str, digest: &str) -> Result<String, AllocError>
    ensures { IfOk result (λ line. string_bytes line ≡ sum_line path.now digest.now) }
{
    format!(in alloc; "{digest}  {path}\n")
}

// A hash in lower-case hexadecimal.
fn digits_of(alloc: Global, hash: &[u8; 32]) -> Result<Field, AllocError>
    ensures { IfOk result (λ digits. digits ≡ encode_lower hash.now) }
{
    let digits = hex::encode(alloc, hash.as_slice())?;
    Field::new(alloc, digits.as_str())
}
