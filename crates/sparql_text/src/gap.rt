//! White space and comments.
ghost use Rattle.std.specs.Prelude.{◌≡◌, ◌<◌, ℕ, List, length, IfSome, IfNone};
ghost use Rattle.sparql_text.specs.Lexing.{Gap, is_inline};
ghost use Rattle.sparql_text.specs.Cutting.{IsRun, IsComment, GapPiece};

use crate::bytes::{is_text, is_white};
use crate::runs::behind;
use memchr::memchr2;

/// The bytes up to the end of a line, and those from there on.
fn split_line(bytes: &[u8]) -> (&[u8], &[u8])
    ensures { IsRun is_inline bytes.now result.0.now result.1.now }
{
    match memchr2(b'\r', b'\n', bytes) {
        Some(end) => bytes.split_at(end),
        None => bytes.split_at(bytes.len()),
    }
}

/// The bytes behind a comment at the start. A comment is `#` and the text up to the end of its line.
fn behind_comment(bytes: &[u8]) -> Option<&[u8]>
    ensures found { IfSome result (λ rest. IsComment bytes.now rest.now) }
    ensures none { IfNone result ((rest : List ℕ) → ¬ (IsComment bytes.now rest)) }
{
    let (text, rest) = split_line(behind(b'#', bytes)?);
    if is_text(text) { Some(rest) } else { None }
}

/// The bytes behind a byte of white space or a comment at the start.
fn behind_piece(bytes: &[u8]) -> Option<&[u8]>
    ensures found { IfSome result (λ rest. GapPiece bytes.now rest.now) }
    ensures shorter { IfSome result (λ rest. length rest.now < length bytes.now) }
    ensures none { IfNone result ((rest : List ℕ) → ¬ (GapPiece bytes.now rest)) }
{
    let (first, rest) = bytes.split_first()?;
    if is_white(*first) {
        return Some(rest);
    }
    behind_comment(bytes)
}

/// The bytes behind the white space and the comments at the start.
pub(crate) fn skip_gap(bytes: &[u8]) -> &[u8]
    ensures gap { Gap bytes.now result.now }
    ensures stops { (left : List ℕ) → Gap result.now left → left ≡ result.now }
{
    let mut rest = bytes;
    'gap: while let Some(more) = behind_piece(rest) {
        rest = more;
    }
    rest
}
