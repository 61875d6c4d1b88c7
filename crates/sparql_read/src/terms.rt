//! The terms and variables that tokens stand for.
ghost use Rattle.std.specs.Prelude.{◌≡◌, ◌≤◌, Some, None, length, IfOk, IfErr};
ghost use Rattle.std.specs.List.{position_or_len};
ghost use Rattle.m3_terms.specs.Order.{text_eq};
ghost use Rattle.m3_terms.specs.Term.{UriFault, LiteralFault};
ghost use Rattle.m3_terms.specs.declared.term.Term.TheVariants.{Uri, Literal};
ghost use Rattle.sparql_text.specs.Scope.{variable_of, full_iri, as_variable, as_object, as_argument};
ghost use Rattle.sparql_text.specs.Values.{unescaped, token_of};
ghost use Rattle.sparql_read.specs.Scoped.{scope_in};

use crate::strings::unescaped;
use m3_terms::{NoMemory, Term, TermFault};
use sparql_algebra::{Operand, Place, Var};
use sparql_text::{Declared, Lexeme, declared_iri};
use std::alloc::Global;

/// The names of a query's variables by their numbers, at most 16, and its declarations in their order.
#[derive(Clone, Copy, Debug)]
pub(crate) struct Names<'a> {
    pub variables: &'a [&'a [u8]],
    pub declared: &'a [Declared<'a>],
}

/// The place of a name among others, or their number.
fn place_of(variables: &[&[u8]], name: &[u8]) -> usize
    ensures within { result ≤ length variables.now }
    ensures value { result ≡ position_or_len (λ known. text_eq name.now known.now) variables.now }
{
    let others = variables.iter().take_while(|known| name != **known);
    others.count()
}

/// The variable of a name.
pub(crate) fn variable_of(names: Names<'_>, name: &[u8]) -> Var
    requires { length names.variables.now ≤ 16 }
    ensures { result ≡ variable_of (scope_in names.entry) name.now }
{
    Var(place_of(names.variables, name) as u8)
}

/// The IRI of a prefixed name.
fn full_iri(
    alloc: Global,
    names: Names<'_>,
    prefix: &[u8],
    local: &[u8],
) -> Result<Vec<u8>, NoMemory>
    ensures { IfOk result (λ iri. iri.items ≡ full_iri (scope_in names.entry) prefix.now local.now) }
{
    let mut iri = Vec::new(alloc);
    iri.extend_from_slice(declared_iri(names.declared, prefix).unwrap_or(b""))?;
    iri.extend_from_slice(local)?;
    Ok(iri)
}

/// The uri that a prefixed name stands for. It may be too long for a term.
pub(crate) fn name_term(
    alloc: Global,
    names: Names<'_>,
    prefix: &[u8],
    local: &[u8],
) -> Result<Term, TermFault>
    ensures ok { IfOk result (λ term. term ≡ Uri (full_iri (scope_in names.entry) prefix.now local.now)) }
    ensures fault { IfErr result (UriFault (full_iri (scope_in names.entry) prefix.now local.now)) }
{
    match full_iri(alloc, names, prefix, local) {
        Ok(iri) => Term::uri(alloc, iri.as_slice()),
        Err(_) => Err(TermFault::NoMemory),
    }
}

/// The literal that a string stands for, from what stands between its quotes. It may be too long for a term.
pub(crate) fn string_term(alloc: Global, raw: &[u8]) -> Result<Term, TermFault>
    ensures ok { IfOk result (λ term. term ≡ Literal (unescaped raw.now)) }
    ensures fault { IfErr result (LiteralFault (unescaped raw.now)) }
{
    match unescaped(alloc, raw) {
        Ok(value) => Term::literal(alloc, value.as_slice()),
        Err(_) => Err(TermFault::NoMemory),
    }
}

/// A fault, where only memory can be wanting: the text was judged before, so each of its terms is one.
pub(crate) fn only_memory<T: Drop>(made: Result<T, TermFault>) -> Result<T, NoMemory>
    ensures { IfOk result (λ value. made ≡ Ok value) }
{
    match made {
        Ok(value) => Ok(value),
        Err(_) => Err(NoMemory),
    }
}

/// The variable or the term that a token stands for, or `None` where it is a word.
pub(crate) fn place_of_token(
    alloc: Global,
    names: Names<'_>,
    lexeme: Lexeme<'_>,
) -> Result<Option<Place>, TermFault>
    requires { length names.variables.now ≤ 16 }
    ensures { IfOk result (λ found. found ≡ as_object (scope_in names.entry) (token_of lexeme.entry)) }
{
    match lexeme {
        Lexeme::Iri(iri) => Ok(Some(Place::Is(Term::uri(alloc, iri)?))),
        Lexeme::Name { prefix, local } => {
            Ok(Some(Place::Is(name_term(alloc, names, prefix, local)?)))
        }
        Lexeme::Variable(name) => Ok(Some(Place::Var(variable_of(names, name)))),
        Lexeme::String(raw) => Ok(Some(Place::Is(string_term(alloc, raw)?))),
        Lexeme::Fixed(_) => Ok(None),
    }
}

/// The operand that a token stands for, or `None` where it is a word.
pub(crate) fn argument_of(
    alloc: Global,
    names: Names<'_>,
    lexeme: Lexeme<'_>,
) -> Result<Option<Operand>, TermFault>
    requires { length names.variables.now ≤ 16 }
    ensures { IfOk result (λ operand. operand ≡ as_argument (scope_in names.entry) (token_of lexeme.entry)) }
{
    match place_of_token(alloc, names, lexeme)? {
        Some(Place::Var(var)) => Ok(Some(Operand::Var(var))),
        Some(Place::Is(term)) => Ok(Some(Operand::Is(term))),
        None => Ok(None),
    }
}

/// The variable that a token stands for.
pub(crate) fn variable_at(names: Names<'_>, lexeme: Lexeme<'_>) -> Option<Var>
    requires { length names.variables.now ≤ 16 }
    ensures { result ≡ as_variable (scope_in names.entry) (token_of lexeme.entry) }
{
    match lexeme {
        Lexeme::Variable(name) => Some(variable_of(names, name)),
        Lexeme::Iri(_) | Lexeme::Name { .. } | Lexeme::String(_) | Lexeme::Fixed(_) => None,
    }
}
