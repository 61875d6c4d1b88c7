//! What stands between the quotes of a string.
ghost use Rattle.std.specs.Prelude.{◌≡◌, ◌≢◌, ◌≤◌, ℕ, List, ◌∷◌, ◌++◌, length, take, drop, IfSome, IfNone};
ghost use Rattle.sparql_text.specs.Tokens.{IsQuote, Unescapes, is_string_byte};
ghost use Rattle.sparql_text.specs.Cutting.{escapes, piece_len, PassesPieces};

use crate::runs::behind;

/// Whether a byte stands for itself in a string between these quotes.
fn is_plain(quote: u8, byte: u8) -> bool
    ensures { result ≡ is_string_byte quote byte }
{
    byte != quote && !matches!(byte, b'\n' | b'\r' | b'\\')
}

/// Whether the first byte stands for another behind `\`.
fn escapes(bytes: &[u8]) -> bool
    ensures { result ≡ escapes bytes.now }
{
    match bytes.first() {
        Some(letter) => matches!(*letter, b't' | b'n' | b'r' | b'\\' | b'"' | b'\''),
        None => false,
    }
}

/// How many bytes the piece of a string at the start has: 1 that stands for itself, 2 of an escape, or none where no piece
/// stands there.
fn piece_len(quote: u8, bytes: &[u8]) -> usize
    ensures value { result ≡ piece_len quote bytes.now }
    ensures within { result ≤ length bytes.now }
{
    let Some((byte, more)) = bytes.split_first() else {
        return 0;
    };
    if is_plain(quote, *byte) {
        return 1;
    }
    if *byte == b'\\' && escapes(more) {
        return 2;
    }
    0
}

/// How many bytes the pieces of a string at the start have.
fn pieces_len(quote: u8, bytes: &[u8]) -> usize
    requires { IsQuote quote }
    ensures within { result ≤ length bytes.now }
    ensures value { (value : List ℕ) × Unescapes quote (take result bytes.now) value }
    ensures passes { PassesPieces quote bytes.now (drop result bytes.now) }
    ensures stops { piece_len quote (drop result bytes.now) ≡ 0 }
{
    let mut at = 0;
    let mut piece = piece_len(quote, bytes);
    'pieces: while piece > 0 {
        at += piece;
        let (_, rest) = bytes.split_at(at);
        piece = piece_len(quote, rest);
    }
    at
}

/// What stands before the quote that ends a string, and the bytes behind that. `None` where no string ends so.
pub(crate) fn split_raw(quote: u8, bytes: &[u8]) -> Option<(&[u8], &[u8])>
    requires { IsQuote quote }
    ensures found { IfSome result (λ p. bytes.now ≡ p.0.now ++ quote ∷ p.1.now) }
    ensures value { IfSome result (λ p. (value : List ℕ) × Unescapes quote p.0.now value) }
    ensures none { IfNone result ((raw value left : List ℕ) → Unescapes quote raw value → bytes.now ≢ raw ++ quote ∷ left) }
{
    let (raw, after) = bytes.split_at(pieces_len(quote, bytes));
    let rest = behind(quote, after)?;
    Some((raw, rest))
}
