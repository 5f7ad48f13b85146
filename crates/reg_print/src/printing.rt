//! Prints JSON straight from what it tells of: no value of JSON is built.
ghost use Rattle.std.specs.Prelude.{◌≡◌, ◌≤◌, ℕ, suc, [], ◌∷◌, map, false, Some, IfErr, IfOk, option_map};
ghost use Rattle.std.specs.String.{string_bytes};
ghost use Rattle.json.specs.Token.{begin_object, end_object, begin_array, end_array, key};
ghost use Rattle.serde_json.specs.Data.{Data, array, boolean, number, string, unsigned};
ghost use Rattle.serde_json.specs.Read.{read, max_depth};
ghost use Rattle.serde_json.specs.View.{items_of};
ghost use Rattle.serde_json.specs.Written.{compact_text};
ghost use Rattle.reg_print.specs.Printed.{Added, IfWhole, Printed, PrintedMembers};
ghost use Rattle.reg_print.specs.Trees.Members.{true_if};

use json::Writer;
use reg_core::rows::Rows;
use reg_core::text::{Form, Text, Word};
use std::alloc::{AllocError, Global};

/// Prints JSON, a name or a value at a time. Once memory is wanting it prints nothing more, and
/// `printed` answers the error: so no step that prints has a way out of its own.
#[derive(Drop)]
pub(crate) struct Printer {
    pub alloc: Global,
    /// Whether memory was there for all that was to be printed so far.
    pub is_whole: bool,
    pub json: Writer,
}

/// The way in which a value is printed where no other is named.
pub(crate) struct Itself;

/// What is printed as JSON. `As` names the way, since some types are printed in more than one.
pub(crate) trait Print<As> {
    /// What its text spells.
    ghost tree: { Self → Data };

    /// How deep that nests at most.
    ghost levels: { ℕ };

    fn print(&self, out: &mut Printer)
        ensures { IfWhole out.old out.new
            (Printed out.old.json out.new.json levels (tree self.now)) };
}

/// The JSON of this, without white space.
pub(crate) fn printed<As, T: Print<As>>(alloc: Global, value: &T) -> Result<Vec<u8>, AllocError>
    requires { T.levels ≤ max_depth }
    ensures text { IfOk result (λ v. v.items ≡ compact_text (T.tree value.now)) }
    ensures reads_back { IfOk result (λ v. read v.items ≡ Some (T.tree value.now)) }
{
    let bytes = Vec::with_capacity(alloc, 128)?;
    let mut out = Printer {
        alloc,
        is_whole: true,
        json: Writer::new(bytes),
    };
    value.print(&mut out);
    if !out.is_whole {
        return Err(AllocError);
    }
    let Printer { json, .. } = out;
    Ok(json.into_inner())
}

impl<F: Form<N>, const N: usize> Print<Itself> for Word<F, N> {
    ghost tree = { string };

    ghost levels = { 0 };

    fn print(&self, out: &mut Printer) {
        out.text(self.as_str());
    }
}

impl Print<Itself> for Text {
    ghost tree = { string };

    ghost levels = { 0 };

    fn print(&self, out: &mut Printer) {
        out.text(self.as_str());
    }
}

impl<As, T: Print<As>> Print<As> for Rows<T> {
    ghost tree = { λ rows. array (items_of (map T.tree rows)) };

    ghost levels = { suc T.levels };

    fn print(&self, out: &mut Printer) {
        out.list(self.as_slice());
    }
}

impl Printer {
    /// The bracket that opens an object.
    pub fn open_object(&mut self)
        ensures { IfWhole self.old self.new (Added self.old.json self.new.json (begin_object ∷ [])) }
    {
        if self.is_whole {
            self.is_whole = self.json.begin_object().is_ok();
        }
    }

    /// The bracket that closes an object.
    pub fn close_object(&mut self)
        ensures { IfWhole self.old self.new (Added self.old.json self.new.json (end_object ∷ [])) }
    {
        if self.is_whole {
            self.is_whole = self.json.end_object().is_ok();
        }
    }

    fn open_array(&mut self)
        ensures { IfWhole self.old self.new (Added self.old.json self.new.json (begin_array ∷ [])) }
    {
        if self.is_whole {
            self.is_whole = self.json.begin_array().is_ok();
        }
    }

    fn close_array(&mut self)
        ensures { IfWhole self.old self.new (Added self.old.json self.new.json (end_array ∷ [])) }
    {
        if self.is_whole {
            self.is_whole = self.json.end_array().is_ok();
        }
    }

    fn name(&mut self, name: &str)
        ensures { IfWhole self.old self.new (Added self.old.json self.new.json (key name.now ∷ [])) }
    {
        if self.is_whole {
            self.is_whole = self.json.key(name).is_ok();
        }
    }

    /// A text.
    pub fn text(&mut self, text: &str)
        ensures { IfWhole self.old self.new (Printed self.old.json self.new.json 0 (string text.now)) }
    {
        if self.is_whole {
            self.is_whole = self.json.string(text).is_ok();
        }
    }

    fn number(&mut self, n: u64)
        ensures { IfWhole self.old self.new (Printed self.old.json self.new.json 0 (number (unsigned n))) }
    {
        if self.is_whole {
            self.is_whole = self.json.u64(n).is_ok();
        }
    }

    fn flag(&mut self, flag: bool)
        ensures { IfWhole self.old self.new (Printed self.old.json self.new.json 0 (boolean flag)) }
    {
        if self.is_whole {
            self.is_whole = self.json.boolean(flag).is_ok();
        }
    }

    /// An array of these, in their order.
    pub fn list<As, T: Print<As>>(&mut self, items: &[T])
        ensures { IfWhole self.old self.new
            (Printed self.old.json self.new.json (suc T.levels)
            (array (items_of (map T.tree items.now)))) }
    {
        self.open_array();
        for item in items {
            item.print(self);
        }
        self.close_array();
    }

    /// A member.
    pub fn put<T: Print<Itself>>(&mut self, name: &str, value: &T)
        ensures { IfWhole self.old self.new
            (PrintedMembers self.old.json self.new.json T.levels
            ((name.now, Some (T.tree value.now)) ∷ [])) }
    {
        self.name(name);
        value.print(self);
    }

    /// A member, where there is one.
    pub fn put_if<T: Print<Itself>>(&mut self, name: &str, value: &Option<T>)
        ensures { IfWhole self.old self.new
            (PrintedMembers self.old.json self.new.json T.levels
            ((name.now, option_map T.tree value.now) ∷ [])) }
    {
        match value {
            Some(value) => self.put(name, value),
            None => {},
        }
    }

    /// A member that is a text.
    pub fn put_text(&mut self, name: &str, text: &str)
        ensures { IfWhole self.old self.new
            (PrintedMembers self.old.json self.new.json 0
            ((name.now, Some (string text.now)) ∷ [])) }
    {
        self.name(name);
        self.text(text);
    }

    /// A member that is a text which was made, if there was memory for it.
    pub fn put_made(&mut self, name: &str, text: Result<String, AllocError>)
        ensures made { IfOk text (λ t. IfWhole self.old self.new
            (PrintedMembers self.old.json self.new.json 0
            ((name.now, Some (string (string_bytes t))) ∷ []))) }
        ensures wanting { IfErr text (λ _. self.new.is_whole ≡ false) }
    {
        match text {
            Ok(text) => self.put_text(name, text.as_str()),
            Err(_) => self.is_whole = false,
        }
    }

    /// A member that is a number.
    pub fn put_number(&mut self, name: &str, n: u64)
        ensures { IfWhole self.old self.new
            (PrintedMembers self.old.json self.new.json 0
            ((name.now, Some (number (unsigned n))) ∷ [])) }
    {
        self.name(name);
        self.number(n);
    }

    /// A member that says how many there are.
    pub fn put_count(&mut self, name: &str, count: usize)
        ensures { IfWhole self.old self.new
            (PrintedMembers self.old.json self.new.json 0
            ((name.now, Some (number (unsigned count))) ∷ [])) }
    {
        self.put_number(name, count as u64);
    }

    /// A member that is true or false.
    pub fn put_flag(&mut self, name: &str, flag: bool)
        ensures { IfWhole self.old self.new
            (PrintedMembers self.old.json self.new.json 0
            ((name.now, Some (boolean flag)) ∷ [])) }
    {
        self.name(name);
        self.flag(flag);
    }

    /// A member that is true, where the flag is.
    pub fn put_true_if(&mut self, name: &str, flag: bool)
        ensures { IfWhole self.old self.new
            (PrintedMembers self.old.json self.new.json 0 ((name.now, true_if flag) ∷ [])) }
    {
        if !flag {
            return;
        }
        self.put_flag(name, flag);
    }
}
