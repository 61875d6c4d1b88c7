ghost use Rattle.std.specs.Prelude.{ℕ, List, IfOk, IfSome, IfNone};
ghost use Rattle.ssap_grammar.specs.Text.{ReadsText};
ghost use Rattle.ssap_text.specs.Ends.{BeginsFinish};

use crate::end::End;
use crate::pieces::read_up_to;
use m3_terms::{NoMemory, Text};
use std::alloc::Global;

/// The text at the start, up to the `</` behind it, and the bytes from there on.
///
/// References stand for their characters and CDATA sections for their content; nothing is trimmed. `None` where no text
/// with `</` behind it stands at the start. The time is linear in the bytes that are read.
pub fn read_text<'a>(alloc: Global, bytes: &'a [u8]) -> Result<Option<(Text, &'a [u8])>, NoMemory>
    ensures found { IfOk result (λ r. IfSome r (λ p. ReadsText p.0 bytes.now p.1.now × BeginsFinish p.1.now)) }
    ensures none { IfOk result (λ r. IfNone r ((value rest : List ℕ) → ReadsText value bytes.now rest → ¬ (BeginsFinish rest))) }
{
    read_up_to(alloc, End::Tag, bytes)
}
