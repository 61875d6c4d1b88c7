ghost use Rattle.std.specs.Prelude.{ℕ, List, IfOk, IfSome, IfNone};
ghost use Rattle.ssap_grammar.specs.Attribute.{ReadsAttvalue};
ghost use Rattle.ssap_text.specs.Pieces.{Opens};
ghost use Rattle.ssap_text.specs.declared.end.End.{End};

use crate::end::End;
use crate::pieces::read_up_to;
use m3_terms::{NoMemory, Text};
use std::alloc::Global;

/// What ends the value that the quote at the start opens, and the bytes behind the quote.
fn opened(bytes: &[u8]) -> Option<(End, &[u8])>
    ensures found { IfSome result (λ p. Opens p.0 bytes.now p.1.now) }
    ensures none { IfNone result ((end : End) (inner : List ℕ) → ¬ (Opens end bytes.now inner)) }
{
    match bytes {
        [b'"', inner @ ..] => Some((End::DoubleQuote, inner)),
        [b'\'', inner @ ..] => Some((End::SingleQuote, inner)),
        _ => None,
    }
}

/// The value of an attribute at the start, in either quote, and the bytes behind it.
///
/// References stand for their characters. `None` where no value stands at the start: it may hold neither `<` nor its
/// quote.
pub fn read_attvalue<'a>(
    alloc: Global,
    bytes: &'a [u8],
) -> Result<Option<(Text, &'a [u8])>, NoMemory>
    ensures found { IfOk result (λ r. IfSome r (λ p. ReadsAttvalue p.0 bytes.now p.1.now)) }
    ensures none { IfOk result (λ r. IfNone r ((value rest : List ℕ) → ¬ (ReadsAttvalue value bytes.now rest))) }
{
    let Some((end, inner)) = opened(bytes) else {
        return Ok(None);
    };
    let Some((value, rest)) = read_up_to(alloc, end, inner)? else {
        return Ok(None);
    };
    Ok(Some((value, &rest[1..])))
}
