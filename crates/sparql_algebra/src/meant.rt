//! Terms with their texts borrowed, as conditions read them, and the tests of such terms.
ghost use Rattle.std.specs.Prelude.{◌≡◌, Bool, nat_eq};
ghost use Rattle.std.specs.Option.{option_map, option_copied};
ghost use Rattle.std.specs.List.{starts_with};
ghost use Rattle.m3_terms.specs.Order.{term_eq, text_of};
ghost use Rattle.sparql_algebra.specs.Truth.{boolean_value, of_term, of_terms, of_literals, is_iri, is_literal, text_lt, has_within};
ghost use Rattle.sparql_algebra.specs.Meant.{meaning, literal_text};

use crate::Truth;
use m3_terms::Term;
use memchr::memmem;
use std::cmp::Ordering;

/// The term that an operand gives, with its text borrowed.
#[derive(Clone, Copy)]
pub enum Meant<'a> {
    Uri(&'a [u8]),
    Literal(&'a [u8]),
}

// A term with its text borrowed.
pub fn borrowed(term: &Term) -> Meant<'_>
    ensures { meaning result ≡ term.now }
{
    match term {
        Term::Uri(text) => Meant::Uri(text.as_bytes()),
        Term::Literal(text) => Meant::Literal(text.as_bytes()),
    }
}

// The literal of a term's text.
pub fn as_literal(term: Meant<'_>) -> Meant<'_>
    ensures { meaning result ≡ Term.Literal (text_of (meaning term.entry)) }
{
    match term {
        Meant::Uri(text) => Meant::Literal(text),
        Meant::Literal(text) => Meant::Literal(text),
    }
}

// The effective boolean value.
pub fn boolean(term: Option<Meant>) -> Truth
    ensures { result ≡ boolean_value (option_map meaning term.entry) }
{
    match term {
        None => Truth::Error,
        Some(Meant::Uri(_)) => Truth::Error,
        Some(Meant::Literal(text)) => Truth::of(!text.is_empty()),
    }
}

// Whether a term is an IRI.
pub fn iri(term: Option<Meant>) -> Truth
    ensures { result ≡ of_term is_iri (option_map meaning term.entry) }
{
    match term {
        None => Truth::Error,
        Some(Meant::Uri(_)) => Truth::True,
        Some(Meant::Literal(_)) => Truth::False,
    }
}

// Whether a term is a literal.
pub fn literal(term: Option<Meant>) -> Truth
    ensures { result ≡ of_term is_literal (option_map meaning term.entry) }
{
    match term {
        None => Truth::Error,
        Some(Meant::Uri(_)) => Truth::False,
        Some(Meant::Literal(_)) => Truth::True,
    }
}

// Whether two terms have one kind and one text.
pub fn same(left: Option<Meant>, right: Option<Meant>) -> Truth
    ensures { result ≡ of_terms term_eq (option_map meaning left.entry) (option_map meaning right.entry) }
{
    let Some(left) = left else {
        return Truth::Error;
    };
    let Some(right) = right else {
        return Truth::Error;
    };
    Truth::of(is_same(left, right))
}

fn is_same(left: Meant, right: Meant) -> bool
    ensures { result ≡ term_eq (meaning left.entry) (meaning right.entry) }
{
    match (left, right) {
        (Meant::Uri(mine), Meant::Uri(yours)) => mine == yours,
        (Meant::Literal(mine), Meant::Literal(yours)) => mine == yours,
        (Meant::Uri(_), Meant::Literal(_)) => false,
        (Meant::Literal(_), Meant::Uri(_)) => false,
    }
}

// The text of a literal, or `None` for anything else.
fn text(term: Option<Meant<'_>>) -> Option<&[u8]>
    ensures { option_copied result ≡ literal_text (option_map meaning term.entry) }
{
    match term {
        None => None,
        Some(Meant::Uri(_)) => None,
        Some(Meant::Literal(text)) => Some(text),
    }
}

// Whether the first of two literals comes before the second.
pub fn less(left: Option<Meant>, right: Option<Meant>) -> Truth
    ensures { result ≡ of_literals text_lt (option_map meaning left.entry) (option_map meaning right.entry) }
{
    let Some(left) = text(left) else {
        return Truth::Error;
    };
    let Some(right) = text(right) else {
        return Truth::Error;
    };
    Truth::of(left.cmp(right) == Ordering::Less)
}

// Whether the first of two literals has the second in it.
pub fn contains(left: Option<Meant>, right: Option<Meant>) -> Truth
    ensures { result ≡ of_literals has_within (option_map meaning left.entry) (option_map meaning right.entry) }
{
    let Some(left) = text(left) else {
        return Truth::Error;
    };
    let Some(right) = text(right) else {
        return Truth::Error;
    };
    Truth::of(has(left, right))
}

// Whether a text has another in it.
fn has(text: &[u8], part: &[u8]) -> bool
    ensures { result ≡ has_within text.now part.now }
{
    memmem::find(text, part).is_some()
}

// Whether the first of two literals begins with the second.
pub fn starts(left: Option<Meant>, right: Option<Meant>) -> Truth
    ensures { result ≡ of_literals (starts_with nat_eq) (option_map meaning left.entry) (option_map meaning right.entry) }
{
    let Some(left) = text(left) else {
        return Truth::Error;
    };
    let Some(right) = text(right) else {
        return Truth::Error;
    };
    Truth::of(left.starts_with(right))
}
