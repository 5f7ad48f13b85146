//! The fields of records that are read. Equal fields of columns with few texts share them.
ghost use Rattle.std.specs.Prelude.{◌≡◌, ◌∷◌, [], ℕ, List, Some, IfOk};
ghost use Rattle.reg_changes.specs.declared.change.Class.{Class};
ghost use Rattle.reg_changes.specs.declared.change.PublishedChange.{PublishedChange};
ghost use Rattle.reg_changes.specs.declared.change.HistoryRecord.{HistoryRecord};
ghost use Rattle.reg_changes.specs.declared.change.PublishedChange.TheVariants.{Made, Term};
ghost use Rattle.reg_history.specs.Chain.{change_fields, record_fields};
ghost use Rattle.reg_history.specs.Texts.{fact_of, standing_of, texts_of};

use crate::texts::Texts;
use reg_changes::change::{
    Class, Details, Fact, HistoryRecord, PublishedChange, PublishedStanding, Subject,
};
use reg_changes::field::Field;
use std::alloc::{AllocError, Global};
use std::collections::BTreeSet;

/// The fields of records, as they are made.
#[derive(Drop)]
pub(crate) struct SharedFields {
    alloc: Global,
    none: Field,
    known: BTreeSet<Field>,
    ghost empty: { none ≡ [] },
}

impl SharedFields {
    /// None so far. Only want of memory is an error.
    pub fn new(alloc: Global) -> Result<Self, AllocError> {
        Ok(SharedFields {
            alloc,
            none: Field::new(alloc, "")?,
            known: BTreeSet::new(alloc),
        })
    }

    /// The record of these texts, if they are of one. Only want of memory is an error.
    pub fn record(&mut self, texts: &Texts<'_>) -> Result<Option<HistoryRecord>, AllocError>
        ensures { IfOk result (λ o. (number : List ℕ) (r : HistoryRecord)
            → texts_of texts.now ≡ record_fields number r → o ≡ Some r) }
    {
        let Some(change) = self.change(texts)? else {
            return Ok(None);
        };
        Ok(Some(HistoryRecord {
            moment: self.shared(texts.moment)?,
            change,
        }))
    }

    fn change(&mut self, texts: &Texts<'_>) -> Result<Option<PublishedChange>, AllocError>
        ensures { IfOk result (λ o. (number moment : List ℕ) (change : PublishedChange)
            → texts_of texts.now ≡ number ∷ moment ∷ change_fields change → o ≡ Some change) }
    {
        if texts.change == "term" {
            return Ok(Some(self.term(texts)?));
        }
        match Class::read(texts.change) {
            Some(class) => Ok(Some(PublishedChange::Made(self.fact(class, texts)?))),
            None => Ok(None),
        }
    }

    fn term(&mut self, texts: &Texts<'_>) -> Result<PublishedChange, AllocError>
        ensures { IfOk result (λ change. change
            ≡ Term texts.now.registry.now texts.now.value.now (standing_of texts.now)) }
    {
        Ok(PublishedChange::Term(
            self.shared(texts.registry)?,
            self.own(texts.value)?,
            self.standing(texts)?,
        ))
    }

    fn fact(&mut self, class: Class, texts: &Texts<'_>) -> Result<Fact, AllocError>
        ensures { IfOk result (λ fact. fact ≡ fact_of class texts.now) }
    {
        Ok(Fact {
            subject: Subject {
                registry: self.shared(texts.registry)?,
                class,
                value: self.own(texts.value)?,
            },
            details: Details {
                description: self.own(texts.description)?,
                policy: self.shared(texts.policy)?,
                first: self.shared(texts.first)?,
                standing: self.standing(texts)?,
                assignee: self.shared(texts.assignee)?,
            },
        })
    }

    fn standing(&mut self, texts: &Texts<'_>) -> Result<PublishedStanding, AllocError>
        ensures { IfOk result (λ standing. standing ≡ standing_of texts.now) }
    {
        Ok(PublishedStanding {
            expires: self.shared(texts.expires)?,
            held: self.shared(texts.held)?,
        })
    }

    // A field with a text that few others have.
    fn own(&self, text: &str) -> Result<Field, AllocError>
        ensures { IfOk result (λ field. field ≡ text.now) }
    {
        if text.is_empty() {
            self.none.copy()
        } else {
            Field::new(self.alloc, text)
        }
    }

    // A field with a text that many have.
    fn shared(&mut self, text: &str) -> Result<Field, AllocError>
        ensures { IfOk result (λ field. field ≡ text.now) }
    {
        let field = self.own(text)?;
        if let Some(known) = self.known.get(&field) {
            return known.copy();
        }
        self.known.insert(field.copy()?)?;
        Ok(field)
    }
}
