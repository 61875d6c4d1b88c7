ghost use Rattle.std.specs.Prelude.{IfOk, flat_map};
ghost use Rattle.ssap_grammar.specs.Front.{OneOf, Given};
ghost use Rattle.ssap_grammar.specs.Attribute.{QuotedWord};
ghost use Rattle.ssap_grammar.specs.Triples.{kind_words, ReadsType};
ghost use Rattle.ssap_read.specs.Told.{Told, Whatever};
ghost use Rattle.ssap_read.specs.Tags.{ReadsStart};
ghost use Rattle.ssap_read.specs.Attributes.{all_kinds, ReadsTyped};

use crate::attribute::{attribute, quote};
use crate::element::{end_of_tag, open};
use crate::text::text_in;
use m3_terms::{NoMemory, Text};
use ssap_items::Kind;
use std::alloc::Global;

/// The word of a kind, in small letters or in capitals.
fn kind_word(bytes: &[u8]) -> Option<(Kind, &[u8])>
    ensures { Told (OneOf (flat_map kind_words all_kinds)) Whatever bytes.now result }
{
    if let Some(rest) = bytes.strip_prefix(b"uri") {
        return Some((Kind::Uri, rest));
    }
    if let Some(rest) = bytes.strip_prefix(b"URI") {
        return Some((Kind::Uri, rest));
    }
    if let Some(rest) = bytes.strip_prefix(b"literal") {
        return Some((Kind::Literal, rest));
    }
    if let Some(rest) = bytes.strip_prefix(b"LITERAL") {
        return Some((Kind::Literal, rest));
    }
    if let Some(rest) = bytes.strip_prefix(b"bnode") {
        return Some((Kind::Bnode, rest));
    }
    if let Some(rest) = bytes.strip_prefix(b"BNODE") {
        return Some((Kind::Bnode, rest));
    }
    None
}

/// The word of a kind in either quote.
fn quoted_kind(bytes: &[u8]) -> Option<(Kind, &[u8])>
    ensures { Told (QuotedWord (flat_map kind_words all_kinds)) Whatever bytes.now result }
{
    let (mark, inner) = quote(bytes)?;
    let (kind, rest) = kind_word(inner)?;
    Some((kind, rest.strip_prefix(&[mark])?))
}

/// The attribute `type`.
fn kind_attribute(bytes: &[u8]) -> Option<(Kind, &[u8])>
    ensures { Told (ReadsType all_kinds) Whatever bytes.now result }
{
    quoted_kind(attribute(b"type", bytes)?)
}

/// A starting tag that may have the attribute `type`: the kind, and whether the element is closed there.
fn typed_start<'a>(name: &[u8], bytes: &'a [u8]) -> Option<((Option<Kind>, bool), &'a [u8])>
    ensures { Told (ReadsStart name.now (Given (ReadsType all_kinds))) Whatever bytes.now result }
{
    let rest = open(name, bytes)?;
    match kind_attribute(rest) {
        Some((kind, rest)) => {
            let (closed, rest) = end_of_tag(rest)?;
            Some(((Some(kind), closed), rest))
        }
        None => {
            let (closed, rest) = end_of_tag(rest)?;
            Some(((None, closed), rest))
        }
    }
}

/// The text in an element of this name that may have the attribute `type`, with the kind that it gives.
pub fn typed_element<'a>(
    alloc: Global,
    name: &[u8],
    bytes: &'a [u8],
) -> Result<Option<((Option<Kind>, Text), &'a [u8])>, NoMemory>
    ensures { IfOk result (Told (ReadsTyped name.now) Whatever bytes.now) }
{
    let Some(((kind, closed), rest)) = typed_start(name, bytes) else {
        return Ok(None);
    };
    let Some((text, rest)) = text_in(alloc, name, closed, rest)? else {
        return Ok(None);
    };
    Ok(Some(((kind, text), rest)))
}
