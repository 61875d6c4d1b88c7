//! The parts of triple patterns that tokens stand for.
ghost use Rattle.std.specs.Prelude.{◌≡◌, ◌≤◌, length, [], IfOk};
ghost use Rattle.sparql_algebra.specs.declared.pattern.Place.TheVariants as place;
ghost use Rattle.m3_terms.specs.declared.term.Term.TheVariants.{Uri};
ghost use Rattle.sparql_text.specs.Scope.{as_subject, as_verb, type_iri};
ghost use Rattle.sparql_text.specs.Tokens.{Fixed};
ghost use Rattle.sparql_text.specs.Values.{token_of};
ghost use Rattle.sparql_read.specs.Scoped.{scope_in};

use crate::terms::{Names, place_of_token};
use m3_terms::{NoMemory, Term, TermFault};
use sparql_algebra::{PatternTriple, Place};
use sparql_text::{Lexeme, Word};
use std::alloc::Global;

/// The subject that a token stands for, or `None` where it can be none.
pub(crate) fn subject_of(
    alloc: Global,
    names: Names<'_>,
    lexeme: Lexeme<'_>,
) -> Result<Option<Place>, TermFault>
    requires { length names.variables.now ≤ 16 }
    ensures { IfOk result (λ subject. subject ≡ as_subject (scope_in names.entry) (token_of lexeme.entry)) }
{
    match lexeme {
        Lexeme::String(_) => Ok(None),
        Lexeme::Iri(_) | Lexeme::Name { .. } | Lexeme::Variable(_) | Lexeme::Fixed(_) => {
            place_of_token(alloc, names, lexeme)
        }
    }
}

/// What `a` stands for.
#[tactic(auto, unfolding(sparql_text::specs::Scope::type_iri))]
fn type_place(alloc: Global) -> Result<Place, TermFault>
    ensures { IfOk result (λ verb. verb ≡ place.Is (Uri type_iri)) }
{
    let iri = Term::uri(alloc, b"http://www.w3.org/1999/02/22-rdf-syntax-ns#type")?;
    Ok(Place::Is(iri))
}

/// The verb that a word stands for, or `None` where it can be none.
fn verb_of_word(alloc: Global, word: Word) -> Result<Option<Place>, TermFault>
    ensures { IfOk result (λ verb. verb ≡ as_verb (record { names = []; declarations = [] }) (Fixed word)) }
{
    match word {
        Word::A => Ok(Some(type_place(alloc)?)),
        _ => Ok(None),
    }
}

/// The verb that a token stands for, or `None` where it can be none.
pub(crate) fn verb_of(
    alloc: Global,
    names: Names<'_>,
    lexeme: Lexeme<'_>,
) -> Result<Option<Place>, TermFault>
    requires { length names.variables.now ≤ 16 }
    ensures { IfOk result (λ verb. verb ≡ as_verb (scope_in names.entry) (token_of lexeme.entry)) }
{
    match lexeme {
        Lexeme::Fixed(word) => verb_of_word(alloc, word),
        Lexeme::Iri(_) | Lexeme::Name { .. } | Lexeme::Variable(_) | Lexeme::String(_) => {
            subject_of(alloc, names, lexeme)
        }
    }
}

/// An equal place, in memory of its own.
fn copy_of_place(place: &Place) -> Result<Place, NoMemory>
    ensures { IfOk result (λ copy. copy ≡ place.now) }
{
    match place {
        Place::Var(var) => Ok(Place::Var(*var)),
        Place::Is(term) => Ok(Place::Is(term.copy()?)),
    }
}

/// The triple pattern of an object and copies of a subject and a verb.
pub(crate) fn triple_of(
    subject: &Place,
    verb: &Place,
    object: Place,
) -> Result<PatternTriple, NoMemory>
    ensures { IfOk result (λ triple. triple ≡ record { subject = subject.now; predicate = verb.now; object = object }) }
{
    let copy = copy_of_place(subject)?;
    Ok(PatternTriple {
        subject: copy,
        predicate: copy_of_place(verb)?,
        object,
    })
}
