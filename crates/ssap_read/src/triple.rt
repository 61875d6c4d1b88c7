ghost use Rattle.std.specs.Prelude.{◌≡◌, ◌≢◌, ◌⊎◌, ◌↔◌, Some, None, MatchOption, IfOk, IsTrue, unwrap_or};
ghost use Rattle.ssap_items.specs.declared.body.Kind.TheVariants.{Uri, Literal};
ghost use Rattle.ssap_grammar.specs.Triples.{ReadsSubject, ReadsPredicate, ReadsObject, ReadsTriple, ReadsTripleList};
ghost use Rattle.ssap_text.specs.Ends.{BeginsFinish};
ghost use Rattle.ssap_read.specs.Told.{Told, Whatever};
ghost use Rattle.ssap_read.specs.Tags.{ReadsEach};
ghost use Rattle.ssap_read.specs.Attributes.{ReadsParts};

use crate::element::{closes, finished, start};
use crate::kind::typed_element;
use m3_terms::{Items, NoMemory, Text};
use ssap_items::{Kind, RawTerm, RawTriple, RawTriples};
use ssap_text::skip_spaces;
use std::alloc::Global;

/// The kind of a subject: a missing attribute means a uri, and a literal is no subject.
fn subject_kind(given: Option<Kind>) -> Option<Kind>
    ensures { MatchOption result (given ≡ Some Literal) (λ kind. (given ≢ Some Literal) × (kind ≡ unwrap_or given Uri)) }
{
    match given {
        None => Some(Kind::Uri),
        Some(Kind::Uri) => Some(Kind::Uri),
        Some(Kind::Literal) => None,
        Some(Kind::Bnode) => Some(Kind::Bnode),
    }
}

/// Whether an attribute may stand at a predicate: it gives a uri or is missing.
fn is_predicate(given: Option<Kind>) -> bool
    ensures { IsTrue result ↔ ((given ≡ None) ⊎ (given ≡ Some Uri)) }
{
    match given {
        None => true,
        Some(Kind::Uri) => true,
        Some(Kind::Literal) => false,
        Some(Kind::Bnode) => false,
    }
}

/// The element of a subject.
fn subject<'a>(alloc: Global, bytes: &'a [u8]) -> Result<Option<(RawTerm, &'a [u8])>, NoMemory>
    ensures { IfOk result (Told ReadsSubject Whatever bytes.now) }
{
    let Some((typed, rest)) = typed_element(alloc, b"subject", bytes)? else {
        return Ok(None);
    };
    let Some(kind) = subject_kind(typed.0) else {
        return Ok(None);
    };
    let text = typed.1;
    Ok(Some((RawTerm { kind, text }, rest)))
}

/// The element of a predicate.
fn predicate<'a>(alloc: Global, bytes: &'a [u8]) -> Result<Option<(Text, &'a [u8])>, NoMemory>
    ensures { IfOk result (Told ReadsPredicate Whatever bytes.now) }
{
    let Some((typed, rest)) = typed_element(alloc, b"predicate", bytes)? else {
        return Ok(None);
    };
    if !is_predicate(typed.0) {
        return Ok(None);
    }
    Ok(Some((typed.1, rest)))
}

/// The element of an object, whose kind is required.
fn object<'a>(alloc: Global, bytes: &'a [u8]) -> Result<Option<(RawTerm, &'a [u8])>, NoMemory>
    ensures { IfOk result (Told ReadsObject Whatever bytes.now) }
{
    let Some((typed, rest)) = typed_element(alloc, b"object", bytes)? else {
        return Ok(None);
    };
    let given = typed.0;
    let Some(kind) = given else {
        return Ok(None);
    };
    let text = typed.1;
    Ok(Some((RawTerm { kind, text }, rest)))
}

/// A subject, a predicate and an object with white space around them.
fn triple_parts<'a>(
    alloc: Global,
    bytes: &'a [u8],
) -> Result<Option<(RawTriple, &'a [u8])>, NoMemory>
    ensures { IfOk result (Told ReadsParts BeginsFinish bytes.now) }
{
    let Some((subject, rest)) = subject(alloc, skip_spaces(bytes))? else {
        return Ok(None);
    };
    let Some((predicate, rest)) = predicate(alloc, skip_spaces(rest))? else {
        return Ok(None);
    };
    let Some((object, rest)) = object(alloc, skip_spaces(rest))? else {
        return Ok(None);
    };
    let triple = RawTriple {
        subject,
        predicate,
        object,
    };
    Ok(Some((triple, skip_spaces(rest))))
}

/// The element of a triple.
fn triple<'a>(alloc: Global, bytes: &'a [u8]) -> Result<Option<(RawTriple, &'a [u8])>, NoMemory>
    ensures { IfOk result (Told ReadsTriple Whatever bytes.now) }
{
    let Some((closed, rest)) = start(b"triple", bytes) else {
        return Ok(None);
    };
    if closed {
        return Ok(None);
    }
    Ok(finished(b"triple", triple_parts(alloc, rest)?))
}

/// The triples up to a finishing tag, with white space around each.
fn each_triple<'a>(
    alloc: Global,
    bytes: &'a [u8],
) -> Result<Option<(RawTriples, &'a [u8])>, NoMemory>
    ensures { IfOk result (Told (ReadsEach ReadsTriple) BeginsFinish bytes.now) }
{
    let mut triples = Items::new(alloc);
    let mut rest = skip_spaces(bytes);
    'each: while !closes(rest) {
        let Some((triple, behind)) = triple(alloc, rest)? else {
            return Ok(None);
        };
        triples.push(triple)?;
        rest = skip_spaces(behind);
    }
    Ok(Some((triples, rest)))
}

/// The element of a list of triples. A list of none may be self-closing.
pub fn triple_list<'a>(
    alloc: Global,
    bytes: &'a [u8],
) -> Result<Option<(RawTriples, &'a [u8])>, NoMemory>
    ensures { IfOk result (Told ReadsTripleList Whatever bytes.now) }
{
    let Some((closed, rest)) = start(b"triple_list", bytes) else {
        return Ok(None);
    };
    if closed {
        return Ok(Some((Items::new(alloc), rest)));
    }
    Ok(finished(b"triple_list", each_triple(alloc, rest)?))
}
