//! The word at the start of bytes.
ghost use Rattle.std.specs.Prelude.{◌≡◌, ◌≤◌, ℕ, List, length, IfSome, IfNone, find};
ghost use Rattle.sparql_text.specs.Tokens.{Fixed};
ghost use Rattle.sparql_text.specs.Lexing.{Reads};
ghost use Rattle.sparql_text.specs.Cutting.{begins_with, NoWord, IsLongestWord};
ghost use Rattle.sparql_text.specs.declared.word.Word.{Word};

use crate::Word;

/// Every word, the longest first.
const WORDS: [Word; 33] = [
    Word::IsLiteral,
    Word::StrStarts,
    Word::Distinct,
    Word::Optional,
    Word::SameTerm,
    Word::Contains,
    Word::Prefix,
    Word::Select,
    Word::Filter,
    Word::Where,
    Word::Union,
    Word::Bound,
    Word::IsIri,
    Word::IsUri,
    Word::Str,
    Word::NotEqual,
    Word::LessEqual,
    Word::GreaterEqual,
    Word::And,
    Word::Or,
    Word::OpenBrace,
    Word::CloseBrace,
    Word::OpenParen,
    Word::CloseParen,
    Word::Dot,
    Word::Semicolon,
    Word::Comma,
    Word::Star,
    Word::Equal,
    Word::Less,
    Word::Greater,
    Word::Not,
    Word::A,
];

/// Whether bytes begin with the word.
fn begins(word: Word, bytes: &[u8]) -> bool
    ensures { result ≡ begins_with word bytes.now }
{
    let spelling = word.spelling();
    if bytes.len() < spelling.len() {
        return false;
    }
    let front = &bytes[..spelling.len()];
    match word {
        Word::A => front == spelling,
        _ => front.eq_ignore_ascii_case(spelling),
    }
}

/// The first of some words with which bytes begin.
fn first_word(words: &[Word], bytes: &[u8]) -> Option<Word>
    ensures { result ≡ find (λ word. begins_with word bytes.now) words.now }
{
    words.iter().copied().find(|word| begins(*word, bytes))
}

/// The longest word with which bytes begin, and the bytes behind it.
pub(crate) fn read_word(bytes: &[u8]) -> Option<(Word, &[u8])>
    ensures found { IfSome result (λ p. Reads (Fixed p.0) bytes.now p.1.now) }
    ensures longest { IfSome result (λ p. IsLongestWord bytes.now p.1.now) }
    ensures none { IfNone result (NoWord bytes.now) }
{
    let word = first_word(&WORDS, bytes)?;
    let (_, rest) = bytes.split_at(word.spelling().len());
    Some((word, rest))
}
