//! What a history says: facts, each of which is about a subject, and the changes that make them.
ghost use Rattle.std.specs.Prelude.{◌≡◌, Some, IfOk};
ghost use Rattle.std.specs.Ordering.{eq_by_cmp, as_partial_cmp};
ghost use Rattle.reg_changes.specs.Recorded.{change_word, description_of, registry_of, value_of};
ghost use Rattle.reg_changes.specs.Replay.{subject_of};
ghost use Rattle.reg_changes.specs.Words.{class_place, class_word};
ghost use Rattle.reg_changes.specs.declared.change.Class.{Class};

use crate::field::Field;
use std::alloc::AllocError;
use std::cmp::Ordering;

/// What a subject is.
#[derive(Clone, Copy, Debug, PartialEq, Eq)]
pub enum Class {
    /// A range of a registry, whose value is `lo-hi` or `lo`.
    Range,
    /// An entry of a registry, by its value.
    Entry,
    /// A prefix of the pool, by its digits. It is of no registry.
    Prefix,
    /// A block, by its digits. It is of no registry.
    Block,
}

impl Class {
    /// The word of the change by which a subject of this class is first published.
    pub fn word(self) -> &'static str
        ensures { result.now ≡ class_word self }
    {
        match self {
            Class::Range => "range",
            Class::Entry => "entry",
            Class::Prefix => "prefix",
            Class::Block => "block",
        }
    }

    /// The class whose subjects are first published by a change with this word.
    pub fn read(word: &str) -> Option<Class>
        ensures { (class : Class) → word.now ≡ class_word class → result ≡ Some class }
    {
        match word {
            "range" => Some(Class::Range),
            "entry" => Some(Class::Entry),
            "prefix" => Some(Class::Prefix),
            "block" => Some(Class::Block),
            _ => None,
        }
    }

    // Its place among the classes.
    fn place(self) -> u8
        ensures { result ≡ class_place self }
    {
        match self {
            Class::Range => 0,
            Class::Entry => 1,
            Class::Prefix => 2,
            Class::Block => 3,
        }
    }
}

/// What a record is about: something that is published once and then stays.
#[derive(Debug, Drop)]
pub struct Subject {
    /// The name of a registry; empty where it is of none.
    pub registry: Field,
    pub class: Class,
    /// Which value or values, or which digits.
    pub value: Field,
}

/// How long an entry stands; both are empty of anything else.
#[derive(Debug, Drop)]
pub struct PublishedStanding {
    /// The day from which it no longer stands; empty where there is none.
    pub expires: Field,
    /// `held`, or empty.
    pub held: Field,
}

/// What is published of a subject, as texts. What does not belong to it is empty.
#[derive(Debug, Drop)]
pub struct Details {
    pub description: Field,
    pub policy: Field,
    pub first: Field,
    pub standing: PublishedStanding,
    pub assignee: Field,
}

/// What is published of a subject, with the subject.
#[derive(Debug, Drop)]
pub struct Fact {
    pub subject: Subject,
    pub details: Details,
}

/// A change of what is published.
#[derive(Debug, Drop)]
pub enum PublishedChange {
    /// A subject is published for the first time.
    Made(Fact),
    /// The entry of this registry at this value stands for another time now.
    Term(Field, Field, PublishedStanding),
}

/// A change, and when it was published. Its number and its digest follow from the records before it.
#[derive(Debug, Drop)]
pub struct HistoryRecord {
    /// As `YYYY-MM-DDThh:mm:ssZ`.
    pub moment: Field,
    pub change: PublishedChange,
}

impl Subject {
    /// An equal subject. Only want of memory is an error.
    pub fn copy(&self) -> Result<Self, AllocError>
        ensures { IfOk result (λ subject. subject ≡ self.now) }
    {
        Ok(Subject {
            registry: self.registry.copy()?,
            class: self.class,
            value: self.value.copy()?,
        })
    }
}

impl PublishedStanding {
    /// An equal standing. Only want of memory is an error.
    pub fn copy(&self) -> Result<Self, AllocError>
        ensures { IfOk result (λ standing. standing ≡ self.now) }
    {
        Ok(PublishedStanding {
            expires: self.expires.copy()?,
            held: self.held.copy()?,
        })
    }
}

impl Details {
    /// Equal details. Only want of memory is an error.
    pub fn copy(&self) -> Result<Self, AllocError>
        ensures { IfOk result (λ details. details ≡ self.now) }
    {
        Ok(Details {
            description: self.description.copy()?,
            policy: self.policy.copy()?,
            first: self.first.copy()?,
            standing: self.standing.copy()?,
            assignee: self.assignee.copy()?,
        })
    }

    /// The details with another standing.
    pub fn with_standing(self, standing: PublishedStanding) -> Self
        ensures { result ≡ record self { standing = standing } }
    {
        Details {
            description: self.description,
            policy: self.policy,
            first: self.first,
            standing,
            assignee: self.assignee,
        }
    }
}

impl Fact {
    /// An equal fact. Only want of memory is an error.
    pub fn copy(&self) -> Result<Self, AllocError>
        ensures { IfOk result (λ fact. fact ≡ self.now) }
    {
        Ok(Fact {
            subject: self.subject.copy()?,
            details: self.details.copy()?,
        })
    }
}

impl PublishedChange {
    /// An equal change. Only want of memory is an error.
    pub fn copy(&self) -> Result<Self, AllocError>
        ensures { IfOk result (λ change. change ≡ self.now) }
    {
        match self {
            PublishedChange::Made(fact) => Ok(PublishedChange::Made(fact.copy()?)),
            PublishedChange::Term(registry, value, standing) => Ok(PublishedChange::Term(
                registry.copy()?,
                value.copy()?,
                standing.copy()?,
            )),
        }
    }

    /// The name of the registry that it is about; empty where it is of none.
    pub fn registry(&self) -> &Field
        ensures { result.now ≡ registry_of self.now }
    {
        match self {
            PublishedChange::Made(fact) => &fact.subject.registry,
            PublishedChange::Term(registry, _, _) => registry,
        }
    }

    /// Its word: `range`, `entry`, `prefix` or `block`, by what is first published, or `term`.
    pub fn word(&self) -> &'static str
        ensures { result.now ≡ change_word self.now }
    {
        match self {
            PublishedChange::Made(fact) => fact.subject.class.word(),
            PublishedChange::Term(_, _, _) => "term",
        }
    }

    /// The value or the values, or the digits.
    pub fn value(&self) -> &str
        ensures { result.now ≡ value_of self.now }
    {
        match self {
            PublishedChange::Made(fact) => fact.subject.value.as_str(),
            PublishedChange::Term(_, value, _) => value.as_str(),
        }
    }

    /// What is first published as its description; empty where nothing is.
    pub fn description(&self) -> &str
        ensures { result.now ≡ description_of self.now }
    {
        match self {
            PublishedChange::Made(fact) => fact.details.description.as_str(),
            PublishedChange::Term(_, _, _) => "",
        }
    }

    /// What it is about. Only want of memory is an error.
    pub fn subject(&self) -> Result<Subject, AllocError>
        ensures { IfOk result (λ subject. subject ≡ subject_of self.now) }
    {
        match self {
            PublishedChange::Made(fact) => fact.subject.copy(),
            PublishedChange::Term(registry, value, _) => Ok(Subject {
                registry: registry.copy()?,
                class: Class::Entry,
                value: value.copy()?,
            }),
        }
    }
}

impl PartialEq for Subject {
    ghost use Rattle.std.specs.Cmp.{partial_equiv_from_equiv, eq_by_cmp_equiv};
    ghost use Rattle.reg_changes.specs.Subjects.{subject_cmp, subject_total};

    ghost eq = { eq_by_cmp subject_cmp };

    ghost laws = { partial_equiv_from_equiv (eq_by_cmp_equiv subject_total) };

    fn eq(&self, other: &Self) -> bool {
        self.cmp(other) == Ordering::Equal
    }
}

impl Eq for Subject {
    ghost use Rattle.std.specs.Cmp.{eq_by_cmp_equiv};
    ghost use Rattle.reg_changes.specs.Subjects.{subject_total};

    ghost laws = { eq_by_cmp_equiv subject_total };
}

impl PartialOrd for Subject {
    ghost use Rattle.std.proofs.Common.{rules};
    ghost use Rattle.std.specs.Cmp.{partial_order_from_own_ties};
    ghost use Rattle.std.specs.Cmp.Rules.{comparing};
    ghost use Rattle.reg_changes.specs.Subjects.{subject_cmp};

    ghost partial_cmp = { as_partial_cmp subject_cmp };

    ghost laws = { partial_order_from_own_ties (Prim.search (comparing, rules))
        (Prim.search (comparing, rules)) };

    fn partial_cmp(&self, other: &Self) -> Option<Ordering> {
        Some(self.cmp(other))
    }
}

impl Ord for Subject {
    ghost use Rattle.std.proofs.Common.{rules};
    ghost use Rattle.std.specs.Cmp.Rules.{comparing};
    ghost use Rattle.reg_changes.specs.Subjects.{subject_cmp, subject_total};

    ghost cmp = { subject_cmp };

    ghost total = { subject_total };

    ghost matches_partial_cmp = { Prim.search (comparing, rules) };

    ghost matches_eq = { Prim.search (comparing, rules) };

    fn cmp(&self, other: &Self) -> Ordering {
        self.registry
            .cmp(&other.registry)
            .then(self.class.place().cmp(&other.class.place()))
            .then(self.value.cmp(&other.value))
    }
}
