ghost use Rattle.std.specs.Prelude.{◌≡◌, IfOk, IsOk, IsTrue, ◌↔◌};
ghost use Rattle.m3_terms.specs.Pattern.{Admits, Fits, term_of, triple_of};

use crate::{NoMemory, Term, Triple};

/// One position of a pattern: the wildcard, or a term.
#[derive(Debug, Drop)]
pub enum Slot {
    Any,
    Is(Term),
}

/// A pattern of triples: each position is the wildcard or a term.
#[derive(Debug, Drop)]
pub struct Pattern {
    pub subject: Slot,
    pub predicate: Slot,
    pub object: Slot,
}

impl Slot {
    /// Whether this slot is the wildcard or the term.
    pub fn admits(&self, term: &Term) -> bool
        ensures { IsTrue result ↔ Admits self.now term.now }
    {
        match self {
            Slot::Any => true,
            Slot::Is(wanted) => wanted == term,
        }
    }

    /// The term of this slot, or `None` where it is the wildcard.
    pub fn into_term(self) -> Option<Term>
        ensures { result ≡ term_of self }
    {
        match self {
            Slot::Any => None,
            Slot::Is(term) => Some(term),
        }
    }

    /// An equal slot. A wildcard takes no memory.
    pub fn copy(&self) -> Result<Slot, NoMemory>
        ensures equal { IfOk result (λ slot. slot ≡ self.now) }
        ensures wildcard { self.now ≡ Slot.Any → IsOk result }
    {
        match self {
            Slot::Any => Ok(Slot::Any),
            Slot::Is(term) => Ok(Slot::Is(term.copy()?)),
        }
    }
}

impl Pattern {
    /// Whether each position is the wildcard or the triple's term there.
    pub fn fits(&self, triple: &Triple) -> bool
        ensures { IsTrue result ↔ Fits self.now triple.now }
    {
        self.subject.admits(&triple.subject)
            && self.predicate.admits(&triple.predicate)
            && self.object.admits(&triple.object)
    }

    /// The triple that this pattern is, or `None` where a position is the wildcard or the subject or the predicate is
    /// a literal.
    pub fn into_triple(self) -> Option<Triple>
        ensures { result ≡ triple_of self }
    {
        Triple::new(
            self.subject.into_term()?,
            self.predicate.into_term()?,
            self.object.into_term()?,
        )
    }

    /// An equal pattern.
    pub fn copy(&self) -> Result<Pattern, NoMemory>
        ensures { IfOk result (λ pattern. pattern ≡ self.now) }
    {
        Ok(Pattern {
            subject: self.subject.copy()?,
            predicate: self.predicate.copy()?,
            object: self.object.copy()?,
        })
    }
}
