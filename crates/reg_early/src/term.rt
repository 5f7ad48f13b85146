//! The terms of entries, and their status on a day (RFC 7120, section 3.3).
ghost use Rattle.std.specs.Prelude.{◌≡◌};

use crate::day::{Day, year_after};
use reg_ranges::formed::Formed;

/// How long an entry stands.
#[derive(Clone, Copy, Debug, PartialEq, Eq)]
pub struct Term {
    /// The day on which the entry was approved.
    pub first: Day,
    /// The day from which an early allocation no longer stands; none for a permanent entry.
    pub expires: Option<Day>,
    /// Whether the early allocation was renewed.
    pub renewed: bool,
    /// Whether a clerk holds the early allocation: it does not expire while this mark stands.
    pub held: bool,
}

/// What an entry is on a day.
#[derive(Clone, Copy, Debug, PartialEq, Eq)]
pub enum Status {
    /// Permanent.
    Assigned,
    /// Allocated early, before the expiry day, or while it is held.
    Temporary,
    /// Allocated early, from the expiry day on, where it is not held.
    Expired,
}

/// Why a term is not renewed.
#[derive(Clone, Copy, Debug, PartialEq, Eq)]
pub enum RenewFault {
    /// It has no expiry.
    Permanent,
    /// It was renewed before, and no minute of the IESG lets it be renewed again.
    Renewed,
}

/// Why a term is not made permanent.
#[derive(Clone, Copy, Debug, PartialEq, Eq)]
pub enum SettleFault {
    /// It has no expiry.
    Permanent,
}

impl Term {
    ghost use Rattle.std.specs.Prelude.{◌≡◌};
    ghost use Rattle.reg_early.specs.Terms.{permanent_term, early_term, held_term, status_on, renewable, renewal, renewed_term, settleable, settled_term, settlement};

    /// The term of an entry that is assigned on a day for good.
    pub fn permanent(first: Day) -> Term
        ensures { result ≡ permanent_term first }
    {
        Term {
            first,
            expires: None,
            renewed: false,
            held: false,
        }
    }

    /// The term of an entry that is allocated early on a day: it expires on the same date of the
    /// next year, or on 28 February for 29 February.
    pub fn early(first: Day) -> Term
        ensures { result ≡ early_term first }
    {
        Term {
            expires: Some(year_after(first)),
            ..Term::permanent(first)
        }
    }

    /// Assigned without expiry; else Temporary while it is held and before the expiry day, and Expired
    /// from that day on.
    pub fn status(&self, day: Day) -> Status
        ensures { result ≡ status_on self.now day }
    {
        match self.expires {
            None => Status::Assigned,
            Some(_) if self.held => Status::Temporary,
            Some(expiry) if day < expiry => Status::Temporary,
            Some(_) => Status::Expired,
        }
    }

    /// Whether it can be renewed, with a minute of the IESG or without one: a term without expiry is
    /// `Permanent`, and one that was renewed before is `Renewed` where there is no such minute.
    pub fn renewable(&self, iesg: bool) -> Result<(), RenewFault>
        ensures { result ≡ renewable self.now iesg }
    {
        match self.expires {
            None => Err(RenewFault::Permanent),
            Some(_) if self.renewed && !iesg => Err(RenewFault::Renewed),
            Some(_) => Ok(()),
        }
    }

    /// The term with the mark of a renewal that is approved on a day: what expires does so a year
    /// from the later of that day and the old expiry day. What is held stays so.
    pub fn renewed_on(&self, approval: Day) -> Term
        ensures { result ≡ renewed_term self.now approval }
    {
        Term {
            first: self.first,
            expires: self.expires.map(|expiry| year_after(expiry.max(approval))),
            renewed: true,
            held: self.held,
        }
    }

    /// The term after a renewal that is approved on a day, with a minute of the IESG or without one,
    /// where it can be renewed.
    pub fn renew(&self, approval: Day, iesg: bool) -> Result<Term, RenewFault>
        ensures { result ≡ renewal self.now approval iesg }
    {
        self.renewable(iesg)?;
        Ok(self.renewed_on(approval))
    }

    /// Whether it can be made permanent: `Permanent` where it has no expiry.
    pub fn settleable(&self) -> Result<(), SettleFault>
        ensures { result ≡ settleable self.now }
    {
        match self.expires {
            None => Err(SettleFault::Permanent),
            Some(_) => Ok(()),
        }
    }

    /// The term without its expiry, and so no longer held.
    pub fn settled(&self) -> Term
        ensures { result ≡ settled_term self.now }
    {
        Term {
            expires: None,
            held: false,
            ..*self
        }
    }

    /// The term without its expiry, where it can be made permanent.
    pub fn settle(&self) -> Result<Term, SettleFault>
        ensures { result ≡ settlement self.now }
    {
        self.settleable()?;
        Ok(self.settled())
    }

    /// The term with a clerk's mark by which it is held, or without it.
    pub fn with_hold(&self, held: bool) -> Term
        ensures { result ≡ held_term held self.now }
    {
        Term { held, ..*self }
    }
}

impl Formed for Term {
    ghost use Rattle.reg_early.specs.Forms.{has_term_form};

    ghost has_form = { has_term_form };

    fn formed(&self) {
        self.first.formed();
        self.expires.formed();
    }
}

impl Status {
    ghost use Rattle.reg_early.specs.Terms.{status_word};

    /// The word of registers and listings.
    pub fn word(&self) -> &'static str
        ensures { result.now ≡ status_word self.now }
    {
        match self {
            Status::Assigned => "Assigned",
            Status::Temporary => "Temporary",
            Status::Expired => "Expired",
        }
    }
}
