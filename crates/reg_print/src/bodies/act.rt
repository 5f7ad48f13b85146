//! Prints acts. Members that an act does not have are not printed.
ghost use Rattle.std.specs.Prelude.{◌≡◌, [], ◌∷◌, codes, option_map};
ghost use Rattle.serde_json.specs.Data.{number, string, unsigned};
ghost use Rattle.reg_blocks.specs.Digits.{block_text, prefix_text};
ghost use Rattle.reg_core.specs.Advice.{verdict_word};
ghost use Rattle.reg_print.specs.Printed.{IfWhole, PrintedMembers};
ghost use Rattle.reg_print.specs.Trees.Act.{act_tree, about_members, what_members};

use crate::printing::{Itself, Print, Printer};
use reg_blocks::block::Block;
use reg_blocks::prefix;
use reg_core::advice::Verdict;
use reg_core::journal::{Act, ActKind, Deed};

/// An act: what was done, about what, when, by whom, and by which token.
impl Print<Itself> for Act {
    ghost tree = { act_tree };

    ghost levels = { 1 };

    fn print(&self, out: &mut Printer) {
        out.open_object();
        put_about(out, self);
        out.put_text("kind", ActKind::of(&self.deed).word());
        put_number_if(out, "moment", self.stamp.moment);
        put_what(out, self);
        out.close_object();
    }
}

// The members before the kind.
fn put_about(out: &mut Printer, act: &Act)
    ensures { IfWhole out.old out.new
        (PrintedMembers out.old.json out.new.json 0 (about_members act.now)) }
{
    out.put_if("account", &act.deed.account());
    out.put_if("agent", &act.deed.agent());
    put_block_if(out, act.deed.block());
    out.put_if("by", &act.stamp.account());
    out.put_if("digest", &act.deed.digest());
    out.put_if("expert", &act.deed.expert());
}

// The members behind the moment.
fn put_what(out: &mut Printer, act: &Act)
    ensures { IfWhole out.old out.new
        (PrintedMembers out.old.json out.new.json 0 (what_members act.now)) }
{
    put_pool_if(out, act.deed.pool());
    out.put_if("reference", &act.deed.reference());
    out.put_if("registry", &act.deed.registry());
    out.put_if("token", &act.stamp.token());
    put_value_if(out, act.deed.value());
    put_verdict_if(out, act.deed.verdict());
}

fn put_block_if(out: &mut Printer, block: Option<Block>)
    ensures { IfWhole out.old out.new (PrintedMembers out.old.json out.new.json 0
        ((codes "block", option_map (λ b. string (block_text b)) block) ∷ [])) }
{
    match block {
        Some(block) => out.put_made("block", block.text(out.alloc)),
        None => {}
    }
}

fn put_value_if(out: &mut Printer, value: Option<u32>)
    ensures { IfWhole out.old out.new (PrintedMembers out.old.json out.new.json 0
        ((codes "value", option_map (λ v. number (unsigned v)) value) ∷ [])) }
{
    match value {
        Some(value) => out.put_number("value", u64::from(value)),
        None => {}
    }
}

fn put_pool_if(out: &mut Printer, pool: Option<u32>)
    ensures { IfWhole out.old out.new (PrintedMembers out.old.json out.new.json 0
        ((codes "pool", option_map (λ p. string (prefix_text p)) pool) ∷ [])) }
{
    match pool {
        Some(pool) => out.put_made("pool", prefix::text(out.alloc, pool)),
        None => {}
    }
}

fn put_verdict_if(out: &mut Printer, verdict: Option<Verdict>)
    ensures { IfWhole out.old out.new (PrintedMembers out.old.json out.new.json 0
        ((codes "verdict", option_map (λ v. string (verdict_word v)) verdict) ∷ [])) }
{
    match verdict {
        Some(verdict) => out.put_text("verdict", verdict.word()),
        None => {}
    }
}

/// A member that is a number, where there is one.
pub(crate) fn put_number_if(out: &mut Printer, name: &str, n: Option<u64>)
    ensures { IfWhole out.old out.new (PrintedMembers out.old.json out.new.json 0
        ((name.now, option_map (λ n. number (unsigned n)) n) ∷ [])) }
{
    match n {
        Some(n) => out.put_number(name, n),
        None => {}
    }
}
