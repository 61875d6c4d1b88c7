ghost use Rattle.std.specs.Prelude.{◌≡◌, IfSome, IfNone, IfOk};
ghost use Rattle.m3_terms.specs.Term.{IsUri};

use crate::{NoMemory, Term};

/// A triple: a uri, a uri and a term.
#[derive(Debug, Drop)]
pub struct Triple {
    pub subject: Term,
    pub predicate: Term,
    pub object: Term,
}

impl Triple {
    /// The triple of these terms, or `None` exactly where the subject or the predicate is a literal.
    pub fn new(subject: Term, predicate: Term, object: Term) -> Option<Triple>
        ensures some { IfSome result (λ t. (t ≡ record { subject = subject; predicate = predicate; object = object }) × IsUri subject × IsUri predicate) }
        ensures none { IfNone result (IsUri subject → IsUri predicate → ⊥) }
    {
        if subject.is_uri() && predicate.is_uri() {
            Some(Triple {
                subject,
                predicate,
                object,
            })
        } else {
            None
        }
    }

    /// An equal triple.
    pub fn copy(&self) -> Result<Triple, NoMemory>
        ensures { IfOk result (λ triple. triple ≡ self.now) }
    {
        Ok(Triple {
            subject: self.subject.copy()?,
            predicate: self.predicate.copy()?,
            object: self.object.copy()?,
        })
    }
}
