use crate::Var;
use m3_terms::{Items, Term};

/// A position of a triple pattern: a variable, or a term.
#[derive(Debug, Drop)]
pub enum Place {
    Var(Var),
    Is(Term),
}

/// A triple pattern (SPARQL 1.1, section 18.1.5).
#[derive(Debug, Drop)]
pub struct PatternTriple {
    pub subject: Place,
    pub predicate: Place,
    pub object: Place,
}

/// Triple patterns in the order in which they are written.
pub type PatternList = Items<PatternTriple>;
