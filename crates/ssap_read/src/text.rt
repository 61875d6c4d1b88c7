ghost use Rattle.std.specs.Prelude.{◌≡◌, [], IfOk};
ghost use Rattle.ssap_grammar.specs.Text.{ReadsText};
ghost use Rattle.ssap_grammar.specs.Attribute.{ReadsAttvalue};
ghost use Rattle.ssap_grammar.specs.Element.{ReadsElement};
ghost use Rattle.ssap_grammar.specs.Front.{Nothing};
ghost use Rattle.ssap_read.specs.Told.{Told, Whatever};
ghost use Rattle.ssap_read.specs.Tags.{ReadsFilling};

use crate::element::{finished, start};
use m3_terms::{NoMemory, Text};
use ssap_text::read_text;
use std::alloc::Global;

/// The text of no bytes.
pub fn no_text(alloc: Global) -> Result<Text, NoMemory>
    ensures { IfOk result (λ text. text ≡ []) }
{
    match Text::read(alloc, b"") {
        Ok(text) => Ok(text),
        Err(_) => Err(NoMemory),
    }
}

/// The text that is the content of an element, with the bytes behind its finishing tag.
#[inline(always)]
pub fn text_in<'a>(
    alloc: Global,
    name: &[u8],
    closed: bool,
    bytes: &'a [u8],
) -> Result<Option<(Text, &'a [u8])>, NoMemory>
    ensures { IfOk result (Told (ReadsFilling name.now ReadsText closed) Whatever bytes.now) }
{
    if closed {
        return Ok(Some((no_text(alloc)?, bytes)));
    }
    Ok(finished(name, read_text(alloc, bytes)?))
}

/// The text in an element of this name without attributes.
#[inline(always)]
pub fn text_element<'a>(
    alloc: Global,
    name: &[u8],
    bytes: &'a [u8],
) -> Result<Option<(Text, &'a [u8])>, NoMemory>
    ensures { IfOk result (Told (λ text. ReadsElement name.now Nothing (ReadsText text)) Whatever bytes.now) }
{
    let Some((closed, rest)) = start(name, bytes) else {
        return Ok(None);
    };
    text_in(alloc, name, closed, rest)
}
