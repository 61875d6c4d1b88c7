//! The tokens of each kind at the start of bytes.
ghost use Rattle.std.specs.Prelude.{◌≡◌, ◌≢◌, ◌⊎◌, ◌∷◌, ◌≤◌, ℕ, List, length, IfSome, IfNone};
ghost use Rattle.sparql_text.specs.Tokens.{Iri, Name, Variable, String, IsQuote};
ghost use Rattle.sparql_text.specs.Lexing.{Reads};
ghost use Rattle.sparql_text.specs.Cutting.{IsValue};

use crate::bytes::is_text;
use crate::raw::split_raw;
use crate::runs::{Class, behind, is_prefix, run, split_local};

/// The IRI at the start, and the bytes behind it.
pub(crate) fn read_iri(bytes: &[u8]) -> Option<(&[u8], &[u8])>
    ensures found { IfSome result (λ p. Reads (Iri p.0.now) bytes.now p.1.now) }
    ensures none { IfNone result ((value left : List ℕ) → ¬ (Reads (Iri value) bytes.now left)) }
{
    let more = behind(b'<', bytes)?;
    let (value, after) = run(Class::Iri, more);
    let rest = behind(b'>', after)?;
    if value.is_empty() || !is_text(value) {
        return None;
    }
    Some((value, rest))
}

/// The bytes behind the mark of a variable at the start.
fn behind_mark(bytes: &[u8]) -> Option<&[u8]>
    ensures found { IfSome result (λ rest. (bytes.now ≡ 63 ∷ rest.now) ⊎ (bytes.now ≡ 36 ∷ rest.now)) }
    ensures none { IfNone result ((rest : List ℕ) → (bytes.now ≢ 63 ∷ rest) × (bytes.now ≢ 36 ∷ rest)) }
{
    match behind(b'?', bytes) {
        Some(rest) => Some(rest),
        None => behind(b'$', bytes),
    }
}

/// The name of the variable at the start, and the bytes behind it.
pub(crate) fn read_variable(bytes: &[u8]) -> Option<(&[u8], &[u8])>
    ensures found { IfSome result (λ p. Reads (Variable p.0.now) bytes.now p.1.now) }
    ensures longest { IfSome result (λ p. (name left : List ℕ) → Reads (Variable name) bytes.now left → length p.1.now ≤ length left) }
    ensures none { IfNone result ((name left : List ℕ) → ¬ (Reads (Variable name) bytes.now left)) }
{
    let more = behind_mark(bytes)?;
    let (name, rest) = run(Class::Variable, more);
    if name.is_empty() {
        return None;
    }
    Some((name, rest))
}

/// The prefix and the local part of the name at the start, and the bytes behind it.
pub(crate) fn read_name(bytes: &[u8]) -> Option<(&[u8], &[u8], &[u8])>
    ensures found { IfSome result (λ p. Reads (Name p.0.now p.1.now) bytes.now p.2.now) }
    ensures longest { IfSome result (λ p. (prefix local left : List ℕ) → Reads (Name prefix local) bytes.now left → length p.2.now ≤ length left) }
    ensures none { IfNone result ((prefix local left : List ℕ) → ¬ (Reads (Name prefix local) bytes.now left)) }
{
    let (prefix, after) = run(Class::Prefix, bytes);
    let more = behind(b':', after)?;
    if !is_prefix(prefix) {
        return None;
    }
    let (local, rest) = split_local(more);
    Some((prefix, local, rest))
}

/// The quote at the start, and the bytes behind it.
fn behind_quote(bytes: &[u8]) -> Option<(u8, &[u8])>
    ensures found { IfSome result (λ p. IsQuote p.0 × (bytes.now ≡ p.0 ∷ p.1.now)) }
    ensures none { IfNone result ((quote : ℕ) (rest : List ℕ) → IsQuote quote → bytes.now ≢ quote ∷ rest) }
{
    match behind(b'"', bytes) {
        Some(rest) => Some((b'"', rest)),
        None => match behind(b'\'', bytes) {
            Some(rest) => Some((b'\'', rest)),
            None => None,
        },
    }
}

/// What stands between the quotes of the string at the start, and the bytes behind it.
pub(crate) fn read_string(bytes: &[u8]) -> Option<(&[u8], &[u8])>
    ensures found { IfSome result (λ p. (value : List ℕ) × IsValue p.0.now value × Reads (String value) bytes.now p.1.now) }
    ensures none { IfNone result ((value left : List ℕ) → ¬ (Reads (String value) bytes.now left)) }
{
    let (quote, more) = behind_quote(bytes)?;
    let (raw, rest) = split_raw(quote, more)?;
    if !is_text(raw) {
        return None;
    }
    Some((raw, rest))
}
