ghost use Rattle.std.specs.Prelude.{◌≡◌, ℕ, Option, option_copied};
ghost use Rattle.m3_terms.specs.declared.term.Term.{Term};
ghost use Rattle.m3_terms.specs.TermTable.{NamesOnce, IsIdOf};

use crate::Term;

/// The number of a term in a table.
#[derive(Clone, Copy, Debug, PartialEq, Eq, PartialOrd, Ord, Hash)]
pub struct TermId(pub u32);

/// A table of terms, each under one number.
pub trait TermTable {
    /// The term that a number has, or `None`.
    ghost terms: { Self → ℕ → Option Term };

    /// The number of a term, or `None` exactly where the table does not hold it.
    fn id_of(&self, term: &Term) -> Option<TermId>
        ensures id { IsIdOf (terms self.now) term.now result }
        ensures once { NamesOnce (terms self.now) };

    /// The term of a number, or `None` exactly where the table gave no such number.
    fn term_of(&self, id: TermId) -> Option<&Term>
        ensures term { option_copied result ≡ terms self.now id.0 }
        ensures once { NamesOnce (terms self.now) };
}
