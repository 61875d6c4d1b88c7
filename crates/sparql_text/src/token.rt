//! The token that bytes begin with.
ghost use Rattle.std.specs.Prelude.{List, ℕ, IfSome, IfNone};
ghost use Rattle.sparql_text.specs.Tokens.{Token};
ghost use Rattle.sparql_text.specs.Lexing.{Reads, Begins};
ghost use Rattle.sparql_text.specs.Cutting.{StandsFor};

use crate::Lexeme;
use crate::fixed::read_word;
use crate::readers::{read_iri, read_name, read_string, read_variable};

/// The token that bytes begin with, the longest one, and the bytes behind it.
pub(crate) fn read_token(bytes: &[u8]) -> Option<(Lexeme<'_>, &[u8])>
    ensures found { IfSome result (λ p. (token : Token) × StandsFor p.0 token × Begins token bytes.now p.1.now) }
    ensures none { IfNone result ((token : Token) (left : List ℕ) → ¬ (Reads token bytes.now left)) }
{
    if let Some((iri, rest)) = read_iri(bytes) {
        return Some((Lexeme::Iri(iri), rest));
    }
    if let Some((name, rest)) = read_variable(bytes) {
        return Some((Lexeme::Variable(name), rest));
    }
    if let Some((raw, rest)) = read_string(bytes) {
        return Some((Lexeme::String(raw), rest));
    }
    if let Some((prefix, local, rest)) = read_name(bytes) {
        return Some((Lexeme::Name { prefix, local }, rest));
    }
    let (word, rest) = read_word(bytes)?;
    Some((Lexeme::Fixed(word), rest))
}
