//! The texts of a record.
ghost use Rattle.std.specs.Prelude.{◌≡◌};
ghost use Rattle.reg_history.specs.Chain.{record_fields, record_of};
ghost use Rattle.reg_history.specs.Texts.{texts_of};

use reg_changes::change::PublishedChange;

/// The texts of a record before its digest, in their order.
#[derive(Clone, Copy)]
pub(crate) struct Texts<'a> {
    pub number: &'a str,
    pub moment: &'a str,
    pub registry: &'a str,
    pub change: &'a str,
    pub value: &'a str,
    pub description: &'a str,
    pub policy: &'a str,
    pub first: &'a str,
    pub expires: &'a str,
    pub held: &'a str,
    pub assignee: &'a str,
}

impl<'a> Texts<'a> {
    /// Those of a change that is published at a moment under a number.
    pub fn of(number: &'a str, moment: &'a str, change: &'a PublishedChange) -> Self
        ensures { texts_of result ≡ record_fields number.now (record_of moment.now change.now) }
    {
        match change {
            PublishedChange::Made(fact) => Texts {
                number,
                moment,
                registry: fact.subject.registry.as_str(),
                change: fact.subject.class.word(),
                value: fact.subject.value.as_str(),
                description: fact.details.description.as_str(),
                policy: fact.details.policy.as_str(),
                first: fact.details.first.as_str(),
                expires: fact.details.standing.expires.as_str(),
                held: fact.details.standing.held.as_str(),
                assignee: fact.details.assignee.as_str(),
            },
            PublishedChange::Term(registry, value, standing) => Texts {
                number,
                moment,
                registry: registry.as_str(),
                change: "term",
                value: value.as_str(),
                description: "",
                policy: "",
                first: "",
                expires: standing.expires.as_str(),
                held: standing.held.as_str(),
                assignee: "",
            },
        }
    }
}
