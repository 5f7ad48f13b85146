//! Notes, looked up by what they are about.
ghost use Rattle.std.specs.Prelude.{◌≡◌, ◌+◌, ℕ, List, Some, None, IfOk, OnOk, string_bytes, if◌then◌else◌};
ghost use Rattle.std.specs.Option.{option_copied};
ghost use Rattle.std.specs.Str.{bytes_eq};
ghost use Rattle.reg_pages.specs.Notes.{entry_thing, note_at, note_count};

use crate::note::Note;
use std::alloc::{AllocError, Global};
use std::collections::BTreeMap;
use std::collections::btree_map::Keys;

/// The name of the authority among things that there are notes on.
pub const AUTHORITY: &str = "";

/// The name of the desk of the authority among these things.
pub const DESK: &str = ",desk";

/// The notes of an authority: at most one on each thing. One is looked up in time that grows with the
/// logarithm of their number.
#[derive(Drop)]
pub struct Notes {
    rows: BTreeMap<String, Note>,
}

impl Notes {
    /// No notes at all.
    pub fn none(alloc: Global) -> Self
        ensures counted { note_count result ≡ 0 }
        ensures noted { (thing : List ℕ) → note_at result thing ≡ None }
    {
        Notes {
            rows: BTreeMap::new(alloc),
        }
    }

    /// The note on the entry at a value of a registry. Only want of memory is an error.
    pub fn of_entry(
        &self,
        alloc: Global,
        name: &str,
        value: u32,
    ) -> Result<Option<&Note>, AllocError>
        ensures { IfOk result (λ o. option_copied o ≡ note_at self.now (entry_thing name.now value)) }
    {
        let thing = entry_thing(alloc, name, value)?;
        Ok(self.at(thing.as_str()))
    }

    /// The note on the thing of this name: on `AUTHORITY`, on `DESK`, or on the registry of this name.
    pub fn at(&self, thing: &str) -> Option<&Note>
        ensures { option_copied result ≡ note_at self.now thing.now }
    {
        self.rows.get(thing)
    }

    /// The names of all things that there are notes on, in order: `AUTHORITY`, `DESK`, a registry's
    /// name, and of an entry the name of its registry, a comma and its value.
    pub fn things(&self) -> Keys<'_, String, Note> {
        self.rows.keys()
    }

    /// How many notes there are.
    pub fn count(&self) -> usize
        ensures { result ≡ note_count self.now }
    {
        self.rows.len()
    }

    /// Notes a thing on which there is no note yet. Only want of memory is an error.
    #[tactic(auto, using(std::proofs::lemmas::Map::Text::btree_map_updates_text))]
    pub(crate) fn add(&mut self, thing: String, note: Note) -> Result<(), AllocError>
        requires { note_at self.old (string_bytes thing) ≡ None }
        ensures counted { OnOk result (note_count self.new ≡ note_count self.old + 1) }
        ensures noted { OnOk result ((other : List ℕ) → note_at self.new other
            ≡ (if bytes_eq (string_bytes thing) other then Some note else note_at self.old other)) }
    {
        self.rows.insert(thing, note)?;
        Ok(())
    }
}

/// The name of the entry at a value of a registry.
pub(crate) fn entry_thing(alloc: Global, name: &str, value: u32) -> Result<String, AllocError>
    ensures { IfOk result (λ thing. string_bytes thing ≡ entry_thing name.now value) }
{
    format!(in alloc; "{name},{value}")
}
