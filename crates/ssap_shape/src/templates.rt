//! The templates that triples spell, and what is wrong with terms.
ghost use Rattle.std.specs.Prelude.{◌≡◌, IfOk, false};
ghost use Rattle.std.specs.List.{list_any, AllZip};
ghost use Rattle.ssap_shape.specs.Templates.{is_wildcard as wildcard, uri_slot as uri_slot_of, IsSlotOf, IsTemplateOf, is_long as long, is_empty_uri as empty_uri, has_empty_uri as empty_uri_in, has_bnode as bnode_in, has_long_term as long_term_in, triples_in, is_text as text_is, is_graph as graph_is, is_bnode as bnode};

use m3_terms::{NoMemory, Pattern, Patterns, Slot, TERM_LIMIT, Term, Text};
use ssap_items::{Body, Kind, RawTerm, RawTriple};
use std::alloc::Global;

#[tactic(auto, unfolding(crate::specs::Templates::is_wildcard))]
fn is_wildcard(text: &Text) -> bool
    ensures { result ≡ wildcard text.now }
{
    let bytes = text.as_bytes();
    bytes == b"sib:any".as_slice() || bytes == b"http://www.nokia.com/NRC/M3/sib#any".as_slice()
}

fn uri_slot(text: &Text) -> Result<Slot, NoMemory>
    ensures { IfOk result (λ slot. slot ≡ uri_slot_of text.now) }
{
    if is_wildcard(text) {
        Ok(Slot::Any)
    } else {
        Ok(Slot::Is(Term::Uri(text.copy()?)))
    }
}

fn slot(term: &RawTerm) -> Result<Slot, NoMemory>
    requires { bnode term.now.kind ≡ false }
    ensures { IfOk result (IsSlotOf term.now.kind term.now.text) }
{
    match term.kind {
        Kind::Uri => uri_slot(&term.text),
        Kind::Literal => Ok(Slot::Is(Term::Literal(term.text.copy()?))),
        Kind::Bnode => unreachable!(),
    }
}

fn template(triple: &RawTriple) -> Result<Pattern, NoMemory>
    requires { bnode_in triple.now ≡ false }
    ensures { IfOk result (IsTemplateOf triple.now) }
{
    Ok(Pattern {
        subject: slot(&triple.subject)?,
        predicate: uri_slot(&triple.predicate)?,
        object: slot(&triple.object)?,
    })
}

/// The templates that the triples of a body spell, of which none has a blank node.
pub fn templates(alloc: Global, body: &Body) -> Result<Patterns, NoMemory>
    requires { list_any bnode_in (triples_in body.now) ≡ false }
    ensures { IfOk result (AllZip IsTemplateOf (triples_in body.now)) }
{
    let mut templates = Patterns::new(alloc);
    if let Body::Triples(triples) = body {
        for triple in triples.as_slice() {
            templates.push(template(triple)?)?;
        }
    }
    Ok(templates)
}

fn is_long(text: &Text) -> bool
    ensures { result ≡ long text.now }
{
    text.len() > TERM_LIMIT
}

fn is_bnode(term: &RawTerm) -> bool
    ensures { result ≡ bnode term.now.kind }
{
    matches!(term.kind, Kind::Bnode)
}

fn is_empty_uri(term: &RawTerm) -> bool
    ensures { result ≡ empty_uri term.now }
{
    matches!(term.kind, Kind::Uri) && term.text.as_bytes().is_empty()
}

fn has_empty_uri(triple: &RawTriple) -> bool
    ensures { result ≡ empty_uri_in triple.now }
{
    is_empty_uri(&triple.subject)
        || triple.predicate.as_bytes().is_empty()
        || is_empty_uri(&triple.object)
}

fn has_bnode(triple: &RawTriple) -> bool
    ensures { result ≡ bnode_in triple.now }
{
    is_bnode(&triple.subject) || is_bnode(&triple.object)
}

fn has_long_term(triple: &RawTriple) -> bool
    ensures { result ≡ long_term_in triple.now }
{
    is_long(&triple.subject.text) || is_long(&triple.predicate) || is_long(&triple.object.text)
}

/// Whether the body is a text.
pub fn is_text(body: &Body) -> bool
    ensures { result ≡ text_is body.now }
{
    matches!(body, Body::Text(_))
}

fn has_empty_uris(body: &Body) -> bool
    ensures { result ≡ list_any empty_uri_in (triples_in body.now) }
{
    match body {
        Body::Triples(triples) => triples.as_slice().iter().any(has_empty_uri),
        Body::Text(_) | Body::Table(_) => false,
    }
}

/// Whether the body is a list of triples without an empty uri.
pub fn is_graph(body: &Body) -> bool
    ensures { result ≡ graph_is body.now }
{
    match body {
        Body::Triples(_) => !has_empty_uris(body),
        Body::Text(_) | Body::Table(_) => false,
    }
}

/// Whether a term of the body's triples is a blank node.
pub fn has_bnodes(body: &Body) -> bool
    ensures { result ≡ list_any bnode_in (triples_in body.now) }
{
    match body {
        Body::Triples(triples) => triples.as_slice().iter().any(has_bnode),
        Body::Text(_) | Body::Table(_) => false,
    }
}

/// Whether a term of the body's triples is too long.
pub fn has_long_terms(body: &Body) -> bool
    ensures { result ≡ list_any long_term_in (triples_in body.now) }
{
    match body {
        Body::Triples(triples) => triples.as_slice().iter().any(has_long_term),
        Body::Text(_) | Body::Table(_) => false,
    }
}
