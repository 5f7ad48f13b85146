//! The rows of an office.
ghost use Rattle.std.specs.Prelude.{◌≡◌, ◌&&◌, true};
ghost use Rattle.reg_core.specs.Entry.{registration_in};
ghost use Rattle.reg_core.specs.Holding.{holder_in};
ghost use Rattle.reg_core.specs.MayBeGiven.{place_of};
ghost use Rattle.reg_core.specs.Names.{is_name};
ghost use Rattle.reg_core.specs.Request.{case_of};
ghost use Rattle.reg_core.specs.WellKept.{has_entry_form, has_holding_form, has_request_form};
ghost use Rattle.reg_opening.specs.Rows.{name_of};

use reg_core::advice::Advice;
use reg_core::capability::Cap;
use reg_core::entry::Entry;
use reg_core::holding::Holding;
use reg_core::request::Request;
use reg_core::text::{Account, Digest, Name, Ref, Text};
use reg_ranges::formed::Formed;
use reg_ranges::table::RangeTable;

/// A row of an office.
#[derive(Drop)]
pub enum Row {
    /// A capability, at the digest of its token.
    Cap(Digest, Cap),
    /// The ranges of a registry, at its name.
    Registry(Name, RangeTable),
    /// An entry of a registry.
    Entry(Entry),
    /// A clerk's mark by which an entry is held: the entry's registry and value.
    Hold(Name, u32),
    /// A prefix of the pool.
    Prefix(u32),
    /// A block that was given, with its holder.
    Block(Holding),
    /// A request.
    Request(Request),
    /// A minute of the IESG that a renewal names: the request's account and reference, the minute.
    Minute(Account, Ref, Text),
    /// An expert to whom a request is assigned: the request's account and reference, the expert.
    Seat(Account, Ref, Account),
    /// What an expert says of a request: the request's account and reference, the expert, the
    /// advice.
    Advice(Account, Ref, Account, Advice),
    /// An agent who may read a principal's requests: the principal, the agent.
    Link(Account, Account),
}

impl Formed for Row {
    ghost use Rattle.reg_opening.specs.Rows.{has_row_form};

    ghost has_form = { has_row_form };

    #[tactic(auto, using(std::proofs::lemmas::Bool::Decides::nat_tests))]
    fn formed(&self) {
        match self {
            Row::Cap(digest, cap) => {
                digest.formed();
                cap.formed();
            }
            Row::Registry(name, table) => {
                name.formed();
                table.formed();
            }
            Row::Entry(entry) => entry_formed(entry),
            Row::Hold(registry, value) => {
                registry.formed();
                let _value = *value;
            }
            Row::Prefix(prefix) => {
                let _prefix = *prefix;
            }
            Row::Block(holding) => holding_formed(holding),
            Row::Request(request) => request_formed(request),
            Row::Minute(account, reference, minute) => {
                account.formed();
                reference.formed();
                minute.formed();
            }
            Row::Seat(account, reference, expert) => seat_formed(account, reference, expert),
            Row::Advice(account, reference, expert, advice) => {
                seat_formed(account, reference, expert);
                advice.formed();
            }
            Row::Link(principal, agent) => {
                principal.formed();
                agent.formed();
            }
        }
    }
}

#[tactic(auto, using(std::proofs::lemmas::Bool::Decides::nat_tests))]
fn entry_formed(entry: &Entry)
    ensures { has_entry_form (place_of entry.now) (registration_in entry.now) ≡ true }
{
    entry.registry.formed();
    let _value = entry.value;
    entry.label.formed();
    entry.assignee.formed();
    entry.term.formed();
}

fn holding_formed(holding: &Holding)
    ensures { has_holding_form holding.now.block (holder_in holding.now) ≡ true }
{
    let _prefix = holding.block.prefix();
    holding.holder.formed();
    holding.organization.formed();
    holding.address.formed();
}

fn request_formed(request: &Request)
    ensures { has_request_form (name_of request.now) (case_of request.now) ≡ true }
{
    request.account.formed();
    request.reference.formed();
    request.ask.formed();
    request.state.formed();
}

fn seat_formed(account: &Account, reference: &Ref, expert: &Account)
    ensures { (is_name account.now && is_name reference.now && is_name expert.now) ≡ true }
{
    account.formed();
    reference.formed();
    expert.formed();
}
