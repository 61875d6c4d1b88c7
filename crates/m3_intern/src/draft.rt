//! Drafts: the new terms of a change, with their memory, before they are kept.
ghost use Rattle.std.specs.Prelude.{◌≡◌, ◌++◌, IfOk};
ghost use Rattle.m3_intern.specs.Interned.{fresh, IsDraftOf};

use crate::{Both, Interner, TermKeys};
use indexmap::IndexSet;
use m3_terms::{NoMemory, Term, TermList};
use std::marker::Model;

/// Terms that an interner is to keep. Contracts see the terms, in the order of their numbers.
#[derive(Drop)]
pub struct Draft {
    pub(crate) terms: IndexSet<Term, TermKeys>,
    pub(crate) cost: u64,
}

impl Model for Draft {
    ghost use Rattle.std.specs.Prelude.{◌≡◌, List};
    ghost use Rattle.m3_terms.specs.declared.term.Term.{Term as SeenTerm};
    ghost use Rattle.m3_intern.specs.Interned.{bytes_of_terms};

    ghost Value = { List SeenTerm };

    ghost view = { λ d. d.terms.keys };

    ghost invariant = { λ d. d.cost ≡ bytes_of_terms d.terms.keys };
}

// The distinct wanted terms that are not kept, in the order in which they first occur.
pub(crate) fn fresh_terms(
    kept: &IndexSet<Term, TermKeys>,
    wanted: TermList,
) -> Result<IndexSet<Term, TermKeys>, NoMemory>
    ensures { IfOk result (λ terms. terms.keys ≡ fresh kept.now.keys wanted) }
{
    let mut terms = IndexSet::with_hasher(*kept.allocator(), *kept.hasher());
    for term in wanted.into_vec() {
        let is_new = !kept.contains(&term);
        if is_new {
            terms.insert(term)?;
        }
    }
    Ok(terms)
}

impl Draft {
    /// The table of the kept terms and those of this draft, by the numbers that they will have.
    pub fn with<'a>(&'a self, interner: &'a Interner) -> Both<'a>
        requires { IsDraftOf interner.now self.now }
        ensures { result ≡ interner.now.terms ++ self.now }
    {
        Both {
            kept: &interner.terms,
            fresh: &self.terms,
        }
    }
}
