//! Which bytes stand in which tokens.
ghost use Rattle.std.specs.Prelude.{◌≡◌, ◌↔◌, IsTrue};
ghost use Rattle.m3_terms.specs.Text.{IsText};
ghost use Rattle.sparql_text.specs.Tokens.{is_letter, is_name_byte, is_prefix_byte, is_local_first, is_local_byte, is_iri_byte};
ghost use Rattle.sparql_text.specs.Lexing.{is_white, ends_line};

use m3_terms::text_len;

/// Whether bytes are a text.
pub(crate) fn is_text(bytes: &[u8]) -> bool
    ensures { IsTrue result ↔ IsText bytes.now }
{
    text_len(bytes) == bytes.len()
}

/// Whether a byte is white space.
pub(crate) fn is_white(byte: u8) -> bool
    ensures { result ≡ is_white byte }
{
    matches!(byte, b' ' | b'\t' | b'\r' | b'\n')
}

/// Whether a byte is a letter of ASCII.
pub(crate) fn is_letter(byte: u8) -> bool
    ensures { result ≡ is_letter byte }
{
    matches!(byte, b'A'..=b'Z' | b'a'..=b'z')
}

/// Whether a byte stands in the name of a variable.
pub(crate) fn is_name_byte(byte: u8) -> bool
    ensures { result ≡ is_name_byte byte }
{
    is_letter(byte) || matches!(byte, b'0'..=b'9' | b'_')
}

/// Whether a byte stands in a prefix.
pub(crate) fn is_prefix_byte(byte: u8) -> bool
    ensures { result ≡ is_prefix_byte byte }
{
    is_name_byte(byte) || byte == b'-' || byte == b'.'
}

/// Whether a byte may come first in a local part.
pub(crate) fn is_local_first(byte: u8) -> bool
    ensures { result ≡ is_local_first byte }
{
    is_name_byte(byte) || byte == b':'
}

/// Whether a byte stands in a local part.
pub(crate) fn is_local_byte(byte: u8) -> bool
    ensures { result ≡ is_local_byte byte }
{
    is_local_first(byte) || byte == b'-' || byte == b'.'
}

/// Whether a byte stands in an IRI.
pub(crate) fn is_iri_byte(byte: u8) -> bool
    ensures { result ≡ is_iri_byte byte }
{
    !matches!(
        byte,
        0..=0x20 | b'<' | b'>' | b'"' | b'{' | b'}' | b'|' | b'^' | b'`' | b'\\'
    )
}
