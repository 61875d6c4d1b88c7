//! The order of texts, terms, triples and lists, which every list that is sent or kept follows.
ghost use Rattle.std.specs.Ordering.{as_partial_cmp};
ghost use Rattle.std.specs.Cmp.{partial_equiv_from_equiv, partial_order_from_agreeing_total};
ghost use Rattle.std.specs.Cmp.Lexicographic.{pointwise, slice_cmp, slice_partial_cmp, lists_per, lists_equiv, lists_po, lists_total, lists_agrees, lists_ties};
ghost use Rattle.std.proofs.Common.{refl};
ghost use Rattle.m3_terms.specs.Order.{text_eq, text_cmp, term_eq, term_cmp, triple_eq, triple_cmp};
ghost use Rattle.m3_terms.specs.OrderLaws.{text_eq_equiv, text_cmp_total, text_ties, term_eq_equiv, term_cmp_total, term_ties, triple_eq_equiv, triple_cmp_total, triple_ties};

use crate::{Items, Term, Text, Triple};
use std::cmp::Ordering;

impl PartialEq for Text {
    ghost eq = { text_eq };

    ghost laws = { partial_equiv_from_equiv text_eq_equiv };

    fn eq(&self, other: &Text) -> bool {
        self.as_bytes() == other.as_bytes()
    }
}

impl Eq for Text {
    ghost laws = { text_eq_equiv };
}

impl PartialOrd for Text {
    ghost partial_cmp = { as_partial_cmp text_cmp };

    ghost laws = { partial_order_from_agreeing_total text_cmp text_cmp_total (λ _ _. refl) text_ties };

    fn partial_cmp(&self, other: &Text) -> Option<Ordering> {
        Some(self.cmp(other))
    }
}

impl Ord for Text {
    ghost cmp = { text_cmp };

    ghost total = { text_cmp_total };

    ghost matches_partial_cmp = { λ _ _. refl };

    ghost matches_eq = { text_ties };

    fn cmp(&self, other: &Text) -> Ordering {
        self.as_bytes().cmp(other.as_bytes())
    }
}

impl PartialEq for Term {
    ghost eq = { term_eq };

    ghost laws = { partial_equiv_from_equiv term_eq_equiv };

    fn eq(&self, other: &Term) -> bool {
        match (self, other) {
            (Term::Uri(mine), Term::Uri(yours)) => mine == yours,
            (Term::Literal(mine), Term::Literal(yours)) => mine == yours,
            _ => false,
        }
    }
}

impl Eq for Term {
    ghost laws = { term_eq_equiv };
}

impl PartialOrd for Term {
    ghost partial_cmp = { as_partial_cmp term_cmp };

    ghost laws = { partial_order_from_agreeing_total term_cmp term_cmp_total (λ _ _. refl) term_ties };

    fn partial_cmp(&self, other: &Term) -> Option<Ordering> {
        Some(self.cmp(other))
    }
}

impl Ord for Term {
    ghost cmp = { term_cmp };

    ghost total = { term_cmp_total };

    ghost matches_partial_cmp = { λ _ _. refl };

    ghost matches_eq = { term_ties };

    fn cmp(&self, other: &Term) -> Ordering {
        match (self, other) {
            (Term::Uri(mine), Term::Uri(yours)) => mine.cmp(yours),
            (Term::Uri(_), Term::Literal(_)) => Ordering::Less,
            (Term::Literal(_), Term::Uri(_)) => Ordering::Greater,
            (Term::Literal(mine), Term::Literal(yours)) => mine.cmp(yours),
        }
    }
}

impl PartialEq for Triple {
    ghost eq = { triple_eq };

    ghost laws = { partial_equiv_from_equiv triple_eq_equiv };

    fn eq(&self, other: &Triple) -> bool {
        self.subject == other.subject
            && self.predicate == other.predicate
            && self.object == other.object
    }
}

impl Eq for Triple {
    ghost laws = { triple_eq_equiv };
}

impl PartialOrd for Triple {
    ghost partial_cmp = { as_partial_cmp triple_cmp };

    ghost laws = { partial_order_from_agreeing_total triple_cmp triple_cmp_total (λ _ _. refl) triple_ties };

    fn partial_cmp(&self, other: &Triple) -> Option<Ordering> {
        Some(self.cmp(other))
    }
}

impl Ord for Triple {
    ghost cmp = { triple_cmp };

    ghost total = { triple_cmp_total };

    ghost matches_partial_cmp = { λ _ _. refl };

    ghost matches_eq = { triple_ties };

    fn cmp(&self, other: &Triple) -> Ordering {
        match self.subject.cmp(&other.subject) {
            Ordering::Equal => match self.predicate.cmp(&other.predicate) {
                Ordering::Equal => self.object.cmp(&other.object),
                unequal => unequal,
            },
            unequal => unequal,
        }
    }
}

impl<T: PartialEq> PartialEq for Items<T> {
    ghost eq = { pointwise T.eq };

    ghost laws = { lists_per T.PartialEq.laws };

    fn eq(&self, other: &Items<T>) -> bool {
        self.as_slice() == other.as_slice()
    }
}

impl<T: Eq> Eq for Items<T> {
    ghost laws = { lists_equiv T.Eq.laws };
}

impl<T: PartialOrd> PartialOrd for Items<T> {
    ghost partial_cmp = { slice_partial_cmp T.partial_cmp };

    ghost laws = { lists_po T.PartialOrd.laws };

    fn partial_cmp(&self, other: &Items<T>) -> Option<Ordering> {
        self.as_slice().partial_cmp(other.as_slice())
    }
}

impl<T: Ord> Ord for Items<T> {
    ghost cmp = { slice_cmp T.cmp };

    ghost total = { lists_total T.total };

    ghost matches_partial_cmp = { lists_agrees T.matches_partial_cmp };

    ghost matches_eq = { lists_ties T.cmp T.matches_eq };

    fn cmp(&self, other: &Items<T>) -> Ordering {
        self.as_slice().cmp(other.as_slice())
    }
}
