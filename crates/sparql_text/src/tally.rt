//! The counts of the tokens of a query, but for its variables and the bytes of its terms.
ghost use Rattle.std.specs.Prelude.{◌≡◌, ◌+◌, if◌then◌else◌};
ghost use Rattle.sparql_text.specs.Tallying.{counted, awaits, IsBounded, word_opens, word_closes, is_operator_word, is_condition_word, is_open_paren_word, is_close_paren_word, is_open_brace_word, is_comma_word, is_semicolon_word, is_term};

use crate::{Kind, Word};

/// What was counted of tokens, and what the last two of them are.
#[derive(Clone, Copy, Debug)]
pub struct Tally {
    /// All tokens.
    pub tokens: usize,
    /// Triple patterns, each at its object.
    pub patterns: usize,
    /// UNION and OPTIONAL.
    pub operators: usize,
    /// FILTER, `&&` and `||`.
    pub conditions: usize,
    /// `{` and `(`.
    pub opens: usize,
    /// `}` and `)`.
    pub closes: usize,
    /// `(`.
    pub open_parens: usize,
    /// `)`.
    pub close_parens: usize,
    /// Whether a `{` is among the tokens.
    pub in_pattern: bool,
    /// Whether the last token is `,`.
    pub comma: bool,
    /// Whether the last token is `;`.
    pub semicolon: bool,
    /// Whether the last token may stand in a triple pattern.
    pub term: bool,
    /// Whether the token before it is `;` or may stand in a triple pattern.
    pub said: bool,
}

/// 1 for a token that counts, and 0 for any other.
fn one(counts: bool) -> usize
    ensures { result ≡ (if counts then 1 else 0) }
{
    if counts { 1 } else { 0 }
}

/// Whether a token may stand in a triple pattern.
fn is_term(kind: Kind) -> bool
    ensures { result ≡ is_term kind }
{
    match kind {
        Kind::Fixed(Word::A) => true,
        Kind::Fixed(_) => false,
        _ => true,
    }
}

/// Whether a token is `{` or `(`.
fn opens(kind: Kind) -> bool
    ensures { result ≡ word_opens kind }
{
    match kind {
        Kind::Fixed(Word::OpenBrace | Word::OpenParen) => true,
        _ => false,
    }
}

/// Whether a token is `}` or `)`.
fn closes(kind: Kind) -> bool
    ensures { result ≡ word_closes kind }
{
    match kind {
        Kind::Fixed(Word::CloseBrace | Word::CloseParen) => true,
        _ => false,
    }
}

/// Whether a token is UNION or OPTIONAL.
fn is_operator(kind: Kind) -> bool
    ensures { result ≡ is_operator_word kind }
{
    match kind {
        Kind::Fixed(Word::Union | Word::Optional) => true,
        _ => false,
    }
}

/// Whether a token is FILTER, `&&` or `||`.
fn is_condition(kind: Kind) -> bool
    ensures { result ≡ is_condition_word kind }
{
    match kind {
        Kind::Fixed(Word::Filter | Word::And | Word::Or) => true,
        _ => false,
    }
}

/// Whether a token is `(`.
fn is_open_paren(kind: Kind) -> bool
    ensures { result ≡ is_open_paren_word kind }
{
    match kind {
        Kind::Fixed(Word::OpenParen) => true,
        _ => false,
    }
}

/// Whether a token is `)`.
fn is_close_paren(kind: Kind) -> bool
    ensures { result ≡ is_close_paren_word kind }
{
    match kind {
        Kind::Fixed(Word::CloseParen) => true,
        _ => false,
    }
}

/// Whether a token is `{`.
fn is_open_brace(kind: Kind) -> bool
    ensures { result ≡ is_open_brace_word kind }
{
    match kind {
        Kind::Fixed(Word::OpenBrace) => true,
        _ => false,
    }
}

/// Whether a token is `,`.
fn is_comma(kind: Kind) -> bool
    ensures { result ≡ is_comma_word kind }
{
    match kind {
        Kind::Fixed(Word::Comma) => true,
        _ => false,
    }
}

/// Whether a token is `;`.
fn is_semicolon(kind: Kind) -> bool
    ensures { result ≡ is_semicolon_word kind }
{
    match kind {
        Kind::Fixed(Word::Semicolon) => true,
        _ => false,
    }
}

impl Tally {
    /// Nothing was counted.
    pub const BLANK: Tally = Tally {
        tokens: 0,
        patterns: 0,
        operators: 0,
        conditions: 0,
        opens: 0,
        closes: 0,
        open_parens: 0,
        close_parens: 0,
        in_pattern: false,
        comma: false,
        semicolon: false,
        term: false,
        said: false,
    };
}

/// Whether a token that may stand in a triple pattern is an object behind what was counted.
fn awaits_object(tally: &Tally) -> bool
    ensures { result ≡ awaits tally.now }
{
    tally.in_pattern
        && tally.open_parens == tally.close_parens
        && (tally.comma || tally.term && tally.said)
}

/// What is counted with one more token.
pub fn count_token(tally: Tally, kind: Kind) -> Tally
    requires { IsBounded tally }
    ensures { result ≡ counted tally kind }
{
    Tally {
        tokens: tally.tokens + 1,
        patterns: tally.patterns + one(awaits_object(&tally) && is_term(kind)),
        operators: tally.operators + one(is_operator(kind)),
        conditions: tally.conditions + one(is_condition(kind)),
        opens: tally.opens + one(opens(kind)),
        closes: tally.closes + one(closes(kind)),
        open_parens: tally.open_parens + one(is_open_paren(kind)),
        close_parens: tally.close_parens + one(is_close_paren(kind)),
        in_pattern: tally.in_pattern || is_open_brace(kind),
        comma: is_comma(kind),
        semicolon: is_semicolon(kind),
        term: is_term(kind),
        said: tally.semicolon || tally.term,
    }
}
