//! How long the texts of triples are, by the numbers of their terms.
ghost use Rattle.std.specs.Prelude.{◌≡◌, ◌+◌, ◌<◌, ◌↔◌, IsTrue, MatchOption, length};
ghost use Rattle.m3_terms.specs.Order.{text_of};
ghost use Rattle.session_core.specs.Numbers.{bytes_at, bytes_of_ids, bytes_in};

use m3_intern::Interner;
use m3_terms::{Term, TermId, TermTable};
use triple_index::IdTriple;

fn text_len(term: &Term) -> usize
    ensures { result ≡ length (text_of term.now) }
{
    match term {
        Term::Uri(text) => text.len(),
        Term::Literal(text) => text.len(),
    }
}

// How many of these bytes are left after the text of a term, or `None` where the text is longer. What is no term's number
// has no text.
fn left_after_text(bytes: u64, terms: &Interner, id: TermId) -> Option<u64>
    ensures { MatchOption result (bytes < bytes_at terms.now.terms id) (λ left. left + bytes_at terms.now.terms id ≡ bytes) }
{
    match terms.term_of(id) {
        Some(term) => bytes.checked_sub(text_len(term) as u64),
        None => Some(bytes),
    }
}

// How many of these bytes are left after the three texts of a triple, or `None` where the texts are longer.
fn left_after_triple(bytes: u64, terms: &Interner, triple: &IdTriple) -> Option<u64>
    ensures { MatchOption result (bytes < bytes_of_ids terms.now.terms triple.now) (λ left. left + bytes_of_ids terms.now.terms triple.now ≡ bytes) }
{
    let left = left_after_text(bytes, terms, triple.subject)?;
    let left = left_after_text(left, terms, triple.predicate)?;
    left_after_text(left, terms, triple.object)
}

/// Whether the texts of triples have more bytes together than a limit. It takes no memory, and reads no triple after the
/// one that passes the limit.
pub(crate) fn texts_exceed(limit: u64, terms: &Interner, triples: &[IdTriple]) -> bool
    ensures { IsTrue result ↔ (limit < bytes_in terms.now.terms triples.now) }
{
    let mut left = limit;
    for triple in triples {
        match left_after_triple(left, terms, triple) {
            Some(rest) => left = rest,
            None => return true,
        }
    }
    false
}
