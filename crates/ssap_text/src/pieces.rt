ghost use Rattle.std.specs.Prelude.{◌≡◌, ◌<◌, ℕ, List, length, IfOk, IfSome, IfNone};
ghost use Rattle.ssap_text.specs.Pieces.{Follows, Reads, ReadsMarked, NoReading};

use crate::bytes::{is_text, text_of};
use crate::end::End;
use crate::marks::{reference, section};
use m3_terms::{NoMemory, Text};
use std::alloc::Global;

/// The value of the reference or the CDATA section at the start, and the bytes behind it.
fn marked(end: End, bytes: &[u8]) -> Option<(&[u8], &[u8])>
    ensures found { IfSome result (λ p. ReadsMarked end p.0.now bytes.now p.1.now) }
    ensures none { IfNone result ((value rest : List ℕ) → ¬ (ReadsMarked end value bytes.now rest)) }
{
    if let Some(found) = reference(bytes) {
        return Some(found);
    }
    match end {
        End::Tag => section(bytes),
        End::DoubleQuote | End::SingleQuote => None,
    }
}

/// The value of the run of plain characters, the reference or the CDATA section at the start, and the bytes behind it.
fn part(end: End, bytes: &[u8]) -> Option<(&[u8], &[u8])>
    requires { ¬ (Follows end bytes.now) }
    ensures found { IfSome result (λ p. Reads end p.0.now bytes.now p.1.now) }
    ensures shorter { IfSome result (λ p. length p.1.now < length bytes.now) }
    ensures none { IfNone result (NoReading end bytes.now) }
{
    let place = end.first_mark(bytes)?;
    if place == 0 {
        return marked(end, bytes);
    }
    let (run, rest) = bytes.split_at(place);
    if is_text(run) {
        Some((run, rest))
    } else {
        None
    }
}

/// The values of the parts at the start one behind the other, up to the end, and the bytes from the end on.
fn parts<'a>(
    alloc: Global,
    end: End,
    bytes: &'a [u8],
) -> Result<Option<(Vec<u8>, &'a [u8])>, NoMemory>
    ensures found { IfOk result (λ r. IfSome r (λ p. Reads end p.0.items bytes.now p.1.now × Follows end p.1.now)) }
    ensures none { IfOk result (λ r. IfNone r (NoReading end bytes.now)) }
{
    let mut values = Vec::new(alloc);
    let mut rest = bytes;
    while !end.begins(rest) {
        let Some((value, after)) = part(end, rest) else {
            return Ok(None);
        };
        values.extend_from_slice(value)?;
        rest = after;
    }
    Ok(Some((values, rest)))
}

/// The text at the start, up to the end, and the bytes from the end on. One run of plain characters is copied once.
pub fn read_up_to<'a>(
    alloc: Global,
    end: End,
    bytes: &'a [u8],
) -> Result<Option<(Text, &'a [u8])>, NoMemory>
    ensures found { IfOk result (λ r. IfSome r (λ p. Reads end p.0 bytes.now p.1.now × Follows end p.1.now)) }
    ensures none { IfOk result (λ r. IfNone r (NoReading end bytes.now)) }
{
    let Some(place) = end.first_mark(bytes) else {
        return Ok(None);
    };
    let (run, rest) = bytes.split_at(place);
    if end.begins(rest) {
        let Some(text) = text_of(alloc, run)? else {
            return Ok(None);
        };
        return Ok(Some((text, rest)));
    }
    let Some((values, rest)) = parts(alloc, end, bytes)? else {
        return Ok(None);
    };
    let Some(text) = text_of(alloc, &values)? else {
        return Ok(None);
    };
    Ok(Some((text, rest)))
}
