use crate::{RawRows, RawTriples};
use m3_terms::{Columns, Text};

/// The kinds of term that a message can spell.
#[derive(Clone, Copy, Debug, PartialEq, Eq)]
pub enum Kind {
    Uri,
    Literal,
    Bnode,
}

/// A term as a message spells it.
#[derive(Debug, Drop)]
pub struct RawTerm {
    pub kind: Kind,
    pub text: Text,
}

/// A triple as a message spells it. A predicate has no kind, since it is always a uri.
#[derive(Debug, Drop)]
pub struct RawTriple {
    pub subject: RawTerm,
    pub predicate: Text,
    pub object: RawTerm,
}

/// One binding of a result: the column's name and the term that is bound.
#[derive(Debug, Drop)]
pub struct RawCell {
    pub name: Text,
    pub value: RawTerm,
}

/// A result table, as of the SPARQL Query Results XML Format.
#[derive(Debug, Drop)]
pub struct RawTable {
    pub columns: Columns,
    pub rows: RawRows,
}

/// The content of a parameter.
#[derive(Debug, Drop)]
pub enum Body {
    Text(Text),
    Triples(RawTriples),
    Table(RawTable),
}
