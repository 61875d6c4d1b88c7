ghost use Rattle.std.specs.Prelude.{slice_get};

use crate::TermKeys;
use indexmap::IndexSet;
use m3_terms::{Term, TermId, TermTable};
use std::marker::Model;

/// The terms of an interner and those of a draft as one table. Contracts see the terms by their numbers.
#[derive(Drop)]
pub struct Both<'a> {
    pub(crate) kept: &'a IndexSet<Term, TermKeys>,
    pub(crate) fresh: &'a IndexSet<Term, TermKeys>,
}

impl<'a> Model for Both<'a> {
    ghost use Rattle.std.specs.Prelude.{List, ◌++◌};
    ghost use Rattle.m3_terms.specs.declared.term.Term.{Term as SeenTerm};
    ghost use Rattle.m3_intern.specs.Inside.{AreNumbered};

    ghost Value = { List SeenTerm };

    ghost view = { λ b. b.kept.now.keys ++ b.fresh.now.keys };

    ghost invariant = { λ b. AreNumbered (b.kept.now.keys ++ b.fresh.now.keys) };
}

impl<'a> TermTable for Both<'a> {
    ghost terms = { λ both n. slice_get both n };

    fn id_of(&self, term: &Term) -> Option<TermId> {
        if let Some(at) = self.kept.get_index_of(term) {
            return Some(TermId(at as u32));
        }
        let at = self.fresh.get_index_of(term)?;
        Some(TermId((self.kept.len() + at) as u32))
    }

    fn term_of(&self, id: TermId) -> Option<&Term> {
        let at = id.0 as usize;
        if at < self.kept.len() {
            self.kept.get_index(at)
        } else {
            self.fresh.get_index(at - self.kept.len())
        }
    }
}
