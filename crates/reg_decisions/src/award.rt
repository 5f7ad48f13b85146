//! What an ask is given, part by part.
ghost use Rattle.std.specs.Prelude.{◌≡◌, IfOk};
ghost use Rattle.reg_core.specs.Award.{entry_on, given_in, holding_from, term_on};
ghost use Rattle.reg_decisions.specs.Views.{award_view, entry_view, holding_view, tenure_view};
ghost use Rattle.reg_core.specs.Rules.{change_to_give};

use reg_blocks::block::Block;
use reg_core::change::Change;
use reg_core::entry::Entry;
use reg_core::holding::Holding;
use reg_core::request::Given;
use reg_core::text::{Account, Name, Ref, Text};
use reg_early::day::Day;
use reg_early::term::Term;
use std::alloc::AllocError;

/// What an ask is given: with the name of the request and the day, all that the change is made of.
#[derive(Clone, Copy)]
pub enum Award<'a> {
    /// An entry: a new one, or the one that stands, in another term.
    Entry(AwardedEntry<'a>),
    /// A block, with its holder.
    Block(NewHolding<'a>),
}

/// How long an entry is given for.
#[derive(Clone, Copy)]
pub enum Tenure<'a> {
    /// A new one, for good.
    ForGood,
    /// A new one, allocated early (RFC 7120 section 3.1).
    Early,
    /// The one that stands in this term, renewed (RFC 7120 section 3.3).
    Renewed(&'a Term),
    /// The one that stands in this term, for good.
    Settled(&'a Term),
}

/// An entry, but for its term, which is known on the day of the approval.
#[derive(Clone, Copy)]
pub struct AwardedEntry<'a> {
    pub registry: &'a Name,
    pub value: u32,
    pub label: &'a Text,
    pub assignee: &'a Account,
    pub tenure: Tenure<'a>,
}

/// A block with its holder, who is not private.
#[derive(Clone, Copy)]
pub struct NewHolding<'a> {
    pub block: &'a Block,
    pub holder: &'a Account,
    pub organization: &'a Text,
    pub address: &'a Text,
}

impl Award<'_> {
    /// What a request that has this award was given.
    pub fn given(&self) -> Given
        ensures { result ≡ given_in (award_view self.now) }
    {
        match self {
            Award::Entry(entry) => Given::Value(entry.value),
            Award::Block(holding) => Given::Block(*holding.block),
        }
    }

    /// The change by which the request of this name is given it on a day.
    pub fn change(
        &self,
        account: &Account,
        reference: &Ref,
        today: Day,
    ) -> Result<Change, AllocError>
        ensures { IfOk result
            (λ c. c ≡ change_to_give (account.now, reference.now) today (award_view self.now)) }
    {
        match self {
            Award::Entry(entry) => {
                let entry = entry.on(today)?;
                Ok(Change::GiveValue(*account, *reference, entry))
            }
            Award::Block(holding) => {
                let holding = holding.listed()?;
                Ok(Change::GiveBlock(*account, *reference, holding))
            }
        }
    }
}

impl Tenure<'_> {
    // The term of an entry that is given on a day.
    fn term(self, today: Day) -> Term
        ensures { result ≡ term_on today (tenure_view self.entry) }
    {
        match self {
            Tenure::ForGood => Term::permanent(today),
            Tenure::Early => Term::early(today),
            Tenure::Renewed(term) => term.renewed_on(today),
            Tenure::Settled(term) => term.settled(),
        }
    }
}

impl AwardedEntry<'_> {
    // The entry, as it is given on a day.
    fn on(&self, today: Day) -> Result<Entry, AllocError>
        ensures { IfOk result (λ e. e ≡ entry_on today (entry_view self.now)) }
    {
        Ok(Entry {
            registry: *self.registry,
            value: self.value,
            label: self.label.copy()?,
            assignee: *self.assignee,
            term: self.tenure.term(today),
        })
    }
}

impl NewHolding<'_> {
    // The holding, listed with organization and address.
    fn listed(&self) -> Result<Holding, AllocError>
        ensures { IfOk result (λ h. h ≡ holding_from (holding_view self.now)) }
    {
        Ok(Holding {
            block: *self.block,
            holder: *self.holder,
            organization: self.organization.copy()?,
            address: self.address.copy()?,
            private: false,
        })
    }
}
