ghost use Rattle.std.specs.Prelude.{◌≡◌, ℕ, List, IfSome, IfNone};
ghost use Rattle.ssap_grammar.specs.Front.{OneOf};
ghost use Rattle.ssap_grammar.specs.Text.{references};
ghost use Rattle.ssap_text.specs.Pieces.{words, ReadsSection};

use crate::bytes::is_text;
use memchr::memmem;

/// The references, each with the character that it stands for.
const REFERENCES: [(&[u8], &[u8]); 8] = [
    (b"&lt;", b"<"),
    (b"&gt;", b">"),
    (b"&amp;", b"&"),
    (b"&quot;", b"\""),
    (b"&apos;", b"'"),
    (b"&#9;", b"\t"),
    (b"&#10;", b"\n"),
    (b"&#13;", b"\r"),
];

/// The value that stands in the table beside the word at the start, and the bytes behind the word.
fn one_of<'a>(table: &[(&'a [u8], &'a [u8])], bytes: &'a [u8]) -> Option<(&'a [u8], &'a [u8])>
    ensures found { IfSome result (λ p. OneOf (words table.now) p.0.now bytes.now p.1.now) }
    ensures none { IfNone result ((value rest : List ℕ) → ¬ (OneOf (words table.now) value bytes.now rest)) }
{
    for (word, value) in table {
        if let Some(rest) = bytes.strip_prefix(*word) {
            return Some((*value, rest));
        }
    }
    None
}

/// The character that the reference at the start stands for, and the bytes behind the reference.
pub fn reference(bytes: &[u8]) -> Option<(&[u8], &[u8])>
    ensures found { IfSome result (λ p. OneOf references p.0.now bytes.now p.1.now) }
    ensures none { IfNone result ((value rest : List ℕ) → ¬ (OneOf references value bytes.now rest)) }
{
    one_of(&REFERENCES, bytes)
}

/// The content of the CDATA section at the start, and the bytes behind the section.
pub fn section(bytes: &[u8]) -> Option<(&[u8], &[u8])>
    ensures found { IfSome result (λ p. ReadsSection p.0.now bytes.now p.1.now) }
    ensures none { IfNone result ((value rest : List ℕ) → ¬ (ReadsSection value bytes.now rest)) }
{
    let inner = bytes.strip_prefix(b"<![CDATA[")?;
    let place = memmem::find(inner, b"]]>")?;
    let (content, rest) = inner.split_at(place);
    if is_text(content) {
        Some((content, &rest[3..]))
    } else {
        None
    }
}
