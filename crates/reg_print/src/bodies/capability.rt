//! Prints capabilities.
ghost use Rattle.std.specs.Prelude.{◌≡◌, take};
ghost use Rattle.reg_print.specs.Printed.{IfWhole, PrintedMembers};
ghost use Rattle.reg_print.specs.Trees.Capability.{cap_row_tree, cap_tree, right_members, revoked_tree};

use crate::printing::{Itself, Print, Printer};
use reg_core::capability::{Cap, CapRow};
use reg_core::text::Digest;

/// How many digits of a digest are shown, which tell tokens apart.
const SHOWN_DIGITS: usize = 12;

/// That a token has no capability now.
pub(crate) struct Revoked;

/// A capability: whose it is, of what kind, and until when it is valid.
impl Print<Itself> for Cap {
    ghost tree = { cap_tree };

    ghost levels = { 1 };

    fn print(&self, out: &mut Printer) {
        out.open_object();
        out.put("account", &self.account);
        put_right(out, self);
        out.close_object();
    }
}

/// A capability, also with the first digits of the digest of the token that has it.
impl Print<Itself> for CapRow {
    ghost tree = { cap_row_tree };

    ghost levels = { 1 };

    fn print(&self, out: &mut Printer) {
        out.open_object();
        out.put("account", &self.cap.account);
        out.put_text("digest", shown_digits(&self.digest));
        put_right(out, &self.cap);
        out.close_object();
    }
}

// The members that tell of what kind a capability is, and until when it is valid.
fn put_right(out: &mut Printer, cap: &Cap)
    ensures { IfWhole out.old out.new
        (PrintedMembers out.old.json out.new.json 0 (right_members cap.now)) }
{
    out.put_text("kind", cap.kind.word());
    out.put_number("until", cap.until.seconds());
}

// The first digits of a digest.
fn shown_digits(digest: &Digest) -> &str
    ensures { result.now ≡ take 12 digest.now }
{
    &digest.as_str()[..SHOWN_DIGITS]
}

impl Print<Itself> for Revoked {
    ghost tree = { λ _. revoked_tree };

    ghost levels = { 1 };

    fn print(&self, out: &mut Printer) {
        out.open_object();
        out.put_flag("revoked", true);
        out.close_object();
    }
}
