//! Prints asks. Members that are absent, and marks that are not set, are not printed.
ghost use Rattle.std.specs.Prelude.{[], ◌∷◌, codes};
ghost use Rattle.reg_print.specs.Printed.{IfWhole, PrintedMembers};
ghost use Rattle.reg_print.specs.Trees.Ask.{ask_tree, block_tree, code_tree, early_text_members, early_tree, least_if, permanence_tree, renewal_tree, rfc_tree, value_if};

use crate::printing::{Itself, Print, Printer};
use reg_core::ask::{Ask, BlockAsk, CodeAsk, EarlyAsk, PermanenceAsk, RenewalAsk, Want};
use reg_core::ask_kind::AskKind;
use reg_early::evidence::EarlyEvidence;
use reg_ranges::evidence::Rfc;

/// An ask, with its kind.
impl Print<Itself> for Ask {
    ghost tree = { ask_tree };

    ghost levels = { 2 };

    fn print(&self, out: &mut Printer) {
        match self {
            Ask::Code(ask) => ask.print(out),
            Ask::Early(ask) => ask.print(out),
            Ask::Renew(ask) => ask.print(out),
            Ask::Permanent(ask) => ask.print(out),
            Ask::Block(ask) => ask.print(out),
        }
    }
}

impl Print<Itself> for CodeAsk {
    ghost tree = { code_tree };

    ghost levels = { 2 };

    fn print(&self, out: &mut Printer) {
        out.open_object();
        out.put_if("contact", &self.evidence.contact);
        out.put_text("kind", AskKind::Code.word());
        out.put("label", &self.label);
        put_least_if(out, self.want);
        out.put_if("minute", &self.evidence.minute);
        out.put("registry", &self.registry);
        out.put_if("rfc", &self.evidence.rfc);
        out.put_if("specification", &self.evidence.spec);
        put_value_if(out, self.want);
        out.close_object();
    }
}

impl Print<Itself> for EarlyAsk {
    ghost tree = { early_tree };

    ghost levels = { 2 };

    fn print(&self, out: &mut Printer) {
        out.open_object();
        put_early_texts(out, &self.evidence);
        out.put_true_if("interest", self.evidence.interest);
        out.put_text("kind", AskKind::Early.word());
        out.put("label", &self.label);
        put_least_if(out, self.want);
        out.put("registry", &self.registry);
        out.put_true_if("stable", self.evidence.stable);
        put_value_if(out, self.want);
        out.put_true_if("will_be_rfc", self.evidence.will_be_rfc);
        out.close_object();
    }
}

impl Print<Itself> for RenewalAsk {
    ghost tree = { renewal_tree };

    ghost levels = { 2 };

    fn print(&self, out: &mut Printer) {
        out.open_object();
        put_early_texts(out, &self.evidence);
        out.put_if("iesg", &self.iesg);
        out.put_true_if("interest", self.evidence.interest);
        out.put_text("kind", AskKind::Renew.word());
        out.put("registry", &self.registry);
        out.put_true_if("stable", self.evidence.stable);
        out.put_number("value", u64::from(self.value));
        out.put_true_if("will_be_rfc", self.evidence.will_be_rfc);
        out.close_object();
    }
}

impl Print<Itself> for PermanenceAsk {
    ghost tree = { permanence_tree };

    ghost levels = { 2 };

    fn print(&self, out: &mut Printer) {
        out.open_object();
        out.put_if("contact", &self.evidence.contact);
        out.put_text("kind", AskKind::Permanent.word());
        out.put_if("minute", &self.evidence.minute);
        out.put("registry", &self.registry);
        out.put_if("rfc", &self.evidence.rfc);
        out.put_if("specification", &self.evidence.spec);
        out.put_number("value", u64::from(self.value));
        out.close_object();
    }
}

impl Print<Itself> for BlockAsk {
    ghost tree = { block_tree };

    ghost levels = { 2 };

    fn print(&self, out: &mut Printer) {
        out.open_object();
        out.put("address", &self.address);
        out.put_text("kind", AskKind::Block.word());
        out.put("organization", &self.organization);
        out.put_text("size", self.size.word());
        out.close_object();
    }
}

impl Print<Itself> for Rfc {
    ghost tree = { rfc_tree };

    ghost levels = { 1 };

    fn print(&self, out: &mut Printer) {
        out.open_object();
        out.put_number("number", u64::from(self.number()));
        out.put_text("stream", self.stream().word());
        out.put_text("track", self.track().word());
        out.close_object();
    }
}

// The texts among the evidence for an early allocation.
fn put_early_texts(out: &mut Printer, evidence: &EarlyEvidence)
    ensures { IfWhole out.old out.new
        (PrintedMembers out.old.json out.new.json 0 (early_text_members evidence.now)) }
{
    out.put_if("chair", &evidence.chair);
    out.put_if("director", &evidence.director);
    out.put_if("draft", &evidence.draft);
}

fn put_value_if(out: &mut Printer, want: Want)
    ensures { IfWhole out.old out.new
        (PrintedMembers out.old.json out.new.json 0 ((codes "value", value_if want) ∷ [])) }
{
    match want {
        Want::Value(value) => out.put_number("value", u64::from(value)),
        Want::Least(_) => {},
    }
}

fn put_least_if(out: &mut Printer, want: Want)
    ensures { IfWhole out.old out.new
        (PrintedMembers out.old.json out.new.json 0 ((codes "least", least_if want) ∷ [])) }
{
    match want {
        Want::Value(_) => {},
        Want::Least(policy) => out.put_text("least", policy.word()),
    }
}
