//! What terms cost.
ghost use Rattle.std.specs.Prelude.{◌≡◌, ◌-◌, ◌^◌, min, length};
ghost use Rattle.m3_terms.specs.Order.{text_of};
ghost use Rattle.m3_intern.specs.Interned.{bytes_of_term, bytes_of_terms};

use m3_terms::Term;

// What a term costs beside its text.
const TERM_COST: u64 = 32;

fn text_len(term: &Term) -> usize
    ensures { result ≡ length (text_of term.now) }
{
    match term {
        Term::Uri(text) => text.len(),
        Term::Literal(text) => text.len(),
    }
}

// What a term costs, up to the greatest u64.
fn cost_of(term: &Term) -> u64
    ensures { result ≡ min (bytes_of_term term.now) (2 ^ 64 - 1) }
{
    (text_len(term) as u64).saturating_add(TERM_COST)
}

// What terms cost together, up to the greatest u64.
#[tactic(auto, using(std::proofs::lemmas::List::Sums::sum_by_more))]
pub(crate) fn cost(terms: &[Term]) -> u64
    ensures { result ≡ min (bytes_of_terms terms.now) (2 ^ 64 - 1) }
{
    let mut sum: u64 = 0;
    for term in terms {
        sum = sum.saturating_add(cost_of(term));
    }
    sum
}
