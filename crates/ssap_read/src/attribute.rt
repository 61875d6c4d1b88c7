ghost use Rattle.std.specs.Prelude.{◌≡◌, ◌∷◌, ℕ, List, IfSome, IfNone, IfOk};
ghost use Rattle.ssap_grammar.specs.Front.{Word};
ghost use Rattle.ssap_grammar.specs.Characters.{IsQuote, Quoted};
ghost use Rattle.ssap_text.specs.Ends.{NoWhite};
ghost use Rattle.ssap_grammar.specs.Attribute.{IsLettered, ReadsAttribute, ReadsAttvalue};
ghost use Rattle.ssap_read.specs.Told.{Told, Passed, Whatever};
ghost use Rattle.ssap_read.specs.Attributes.{ReadsAttributeName};

use m3_terms::{NoMemory, Text};
use ssap_text::{read_attvalue, skip_spaces};
use std::alloc::Global;

/// The bytes of the value of the attribute with this name, which has white space before it.
pub fn attribute<'a>(name: &[u8], bytes: &'a [u8]) -> Option<&'a [u8]>
    ensures { IsLettered name.now → Passed (ReadsAttributeName name.now) NoWhite bytes.now result }
{
    let begin = skip_spaces(bytes);
    if begin.len() == bytes.len() {
        return None;
    }
    let named = begin.strip_prefix(name)?;
    let behind = skip_spaces(named).strip_prefix(b"=")?;
    Some(skip_spaces(behind))
}

/// The quote that the bytes begin with, and the bytes behind it.
pub fn quote(bytes: &[u8]) -> Option<(u8, &[u8])>
    ensures found { IfSome result (λ x. IsQuote x.0 × (bytes.now ≡ x.0 ∷ x.1.now)) }
    ensures none { IfNone result ((mark : ℕ) (rest : List ℕ) → IsQuote mark → ¬ (bytes.now ≡ mark ∷ rest)) }
{
    if let Some(rest) = bytes.strip_prefix(b"\"") {
        return Some((b'"', rest));
    }
    if let Some(rest) = bytes.strip_prefix(b"'") {
        return Some((b'\'', rest));
    }
    None
}

/// The bytes behind this word in either quote.
pub fn quoted<'a>(word: &[u8], bytes: &'a [u8]) -> Option<&'a [u8]>
    ensures { Passed (Quoted (λ mark. Word word.now)) Whatever bytes.now result }
{
    let (mark, inner) = quote(bytes)?;
    inner.strip_prefix(word)?.strip_prefix(&[mark])
}

/// The value of the attribute with this name.
pub fn value_attribute<'a>(
    alloc: Global,
    name: &[u8],
    bytes: &'a [u8],
) -> Result<Option<(Text, &'a [u8])>, NoMemory>
    ensures { IsLettered name.now → IfOk result (Told (λ value. ReadsAttribute name.now (ReadsAttvalue value)) Whatever bytes.now) }
{
    let Some(rest) = attribute(name, bytes) else {
        return Ok(None);
    };
    Ok(read_attvalue(alloc, rest)?)
}
