//! Triples and patterns whose terms are numbers.
ghost use Rattle.std.specs.Prelude.{◌≡◌};
ghost use Rattle.triple_index.specs.Fits.{admits, fits};

use m3_terms::{Items, TermId};

/// A triple, each term by its number. Triples are ordered by subject, then by predicate, then by object.
#[derive(Clone, Copy, Debug, PartialEq, Eq, PartialOrd, Ord, Hash)]
pub struct IdTriple {
    pub subject: TermId,
    pub predicate: TermId,
    pub object: TermId,
}

/// A pattern: each place is the number of a term, or `None` for the wildcard.
#[derive(Clone, Copy, Debug, PartialEq, Eq)]
pub struct IdPattern {
    pub subject: Option<TermId>,
    pub predicate: Option<TermId>,
    pub object: Option<TermId>,
}

/// Triples in a row.
pub type IdTriples = Items<IdTriple>;

/// Patterns in a row.
pub type IdPatterns = Items<IdPattern>;

// Whether a place is the wildcard or this number.
fn admits_id(place: Option<TermId>, id: TermId) -> bool
    ensures { result ≡ admits place id }
{
    match place {
        None => true,
        Some(wanted) => wanted.0 == id.0,
    }
}

impl IdPattern {
    /// Whether each place is the wildcard or the triple's number in that place.
    pub fn fits(&self, triple: &IdTriple) -> bool
        ensures { result ≡ fits self.now triple.now }
    {
        admits_id(self.subject, triple.subject)
            && admits_id(self.predicate, triple.predicate)
            && admits_id(self.object, triple.object)
    }
}
