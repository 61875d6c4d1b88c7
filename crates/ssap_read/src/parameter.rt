ghost use Rattle.std.specs.Prelude.{IfOk};
ghost use Rattle.ssap_grammar.specs.Parameter.{ReadsBody, ReadsParameter};
ghost use Rattle.ssap_text.specs.Ends.{BeginsFinish};
ghost use Rattle.ssap_read.specs.Told.{Told, Whatever};
ghost use Rattle.ssap_read.specs.Tags.{EndsTag, ReadsParameterFilling};
ghost use Rattle.ssap_read.specs.Attributes.{ReadsBoth};

use crate::attribute::value_attribute;
use crate::element::{end_of_tag, finished, open};
use crate::table::table;
use crate::text::no_text;
use crate::triple::triple_list;
use m3_terms::{NoMemory, Text};
use ssap_items::{Body, Param};
use ssap_text::{read_text, skip_spaces};
use std::alloc::Global;

/// The name of a parameter and perhaps its encoding, in either order.
fn attributes<'a>(
    alloc: Global,
    bytes: &'a [u8],
) -> Result<Option<((Text, Option<Text>), &'a [u8])>, NoMemory>
    ensures { IfOk result (Told ReadsBoth EndsTag bytes.now) }
{
    if let Some((encoding, rest)) = value_attribute(alloc, b"encoding", bytes)? {
        let Some((name, rest)) = value_attribute(alloc, b"name", rest)? else {
            return Ok(None);
        };
        return Ok(Some(((name, Some(encoding)), rest)));
    }
    let Some((name, rest)) = value_attribute(alloc, b"name", bytes)? else {
        return Ok(None);
    };
    if let Some((encoding, rest)) = value_attribute(alloc, b"encoding", rest)? {
        return Ok(Some(((name, Some(encoding)), rest)));
    }
    Ok(Some(((name, None), rest)))
}

/// The content of a parameter: a list or a table where their elements begin, and a text elsewhere.
fn body<'a>(alloc: Global, bytes: &'a [u8]) -> Result<Option<(Body, &'a [u8])>, NoMemory>
    ensures { IfOk result (Told ReadsBody BeginsFinish bytes.now) }
{
    let begin = skip_spaces(bytes);
    if let Some((triples, rest)) = triple_list(alloc, begin)? {
        return Ok(Some((Body::Triples(triples), skip_spaces(rest))));
    }
    if let Some((rows, rest)) = table(alloc, begin)? {
        return Ok(Some((Body::Table(rows), skip_spaces(rest))));
    }
    let Some((text, rest)) = read_text(alloc, bytes)? else {
        return Ok(None);
    };
    Ok(Some((Body::Text(text), rest)))
}

/// The content of a parameter behind its starting tag: an empty text where the element is closed there.
fn body_in<'a>(
    alloc: Global,
    closed: bool,
    bytes: &'a [u8],
) -> Result<Option<(Body, &'a [u8])>, NoMemory>
    ensures { IfOk result (Told (ReadsParameterFilling closed) Whatever bytes.now) }
{
    if closed {
        return Ok(Some((Body::Text(no_text(alloc)?), bytes)));
    }
    Ok(finished(b"parameter", body(alloc, bytes)?))
}

/// The element of a parameter.
pub fn parameter<'a>(alloc: Global, bytes: &'a [u8]) -> Result<Option<(Param, &'a [u8])>, NoMemory>
    ensures { IfOk result (Told ReadsParameter Whatever bytes.now) }
{
    let Some(rest) = open(b"parameter", bytes) else {
        return Ok(None);
    };
    let Some((given, rest)) = attributes(alloc, rest)? else {
        return Ok(None);
    };
    let Some((closed, rest)) = end_of_tag(rest) else {
        return Ok(None);
    };
    let Some((body, rest)) = body_in(alloc, closed, rest)? else {
        return Ok(None);
    };
    let (name, encoding) = given;
    let param = Param {
        name,
        encoding,
        body,
    };
    Ok(Some((param, rest)))
}
