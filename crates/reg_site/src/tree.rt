//! The JSON of a registry, an entry at a time.
ghost use Rattle.std.specs.Prelude.{◌≡◌, ◌++◌, OnOk};
ghost use Rattle.reg_core.specs.declared.reply.Reply.TheVariants.{Accepted};
ghost use Rattle.reg_core.specs.declared.told.Told.TheVariants as tells;
ghost use Rattle.reg_print.specs.Answer.{body_text};
ghost use Rattle.reg_print.specs.Parts.{end_text};
ghost use Rattle.reg_print.specs.declared.answer.Answer.TheVariants.{Reply};
ghost use Rattle.reg_site.specs.Tree.{tree_left};

use reg_core::page::Page;
use reg_pages::portions::{Next, Portions};
use reg_print::parts::{end_text, front, push_entry};
use std::alloc::AllocError;

/// The JSON of a registry in portions, as an office answers it. The first portion has what stands
/// before its entries, each other one an entry, and the last what stands behind them.
#[derive(Drop)]
pub struct RegistryTree<'a> {
    page: &'a Page,
    next: Next,
}

impl<'a> RegistryTree<'a> {
    /// All of the JSON of this registry is to be given.
    pub fn of(page: &'a Page) -> Self
        ensures { tree_left result ≡ body_text (Reply (Accepted (tells.Page page.now))) }
    {
        RegistryTree {
            page,
            next: Next::Above,
        }
    }
}

impl Portions for RegistryTree<'_> {
    ghost rest = { tree_left };

    fn push_next(&mut self, out: &mut Vec<u8>) -> Result<bool, AllocError> {
        let entries = self.page.entries.as_slice();
        match self.next {
            Next::Above => out.extend_from_slice(front())?,
            Next::Row(place) => match entries.get(place) {
                Some(entry) => push_entry(out, 0 < place, entry)?,
                None => push_end(out, self.page)?,
            },
            Next::Nothing => return Ok(false),
        }
        self.next = self.next.after(entries.len());
        Ok(true)
    }
}

fn push_end(out: &mut Vec<u8>, page: &Page) -> Result<(), AllocError>
    ensures { OnOk result (out.new.items ≡ out.old.items ++ end_text page.now) }
{
    let end = end_text(*out.allocator(), page)?;
    out.extend_from_slice(end.as_slice())
}
