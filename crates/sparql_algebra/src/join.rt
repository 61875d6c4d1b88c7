//! The merges of compatible pairs of two lists of solutions.
ghost use Rattle.std.specs.Prelude.{◌≤◌, None, IfOk, IfErr, Contains, length};
ghost use Rattle.sparql_algebra.specs.Merged.{IsJoined};
ghost use Rattle.sparql_algebra.specs.TermSolutions.{id_var};
ghost use Rattle.sparql_algebra.specs.RowSets.{AreExactly, WhyNone};

use crate::near::Near;
use crate::passing::gather_passing;
use crate::{IdRows, RowsFault};
use m3_terms::{Term, TermId, TermTable};
use std::alloc::Global;

/// The merges of compatible pairs, one solution of each list, each once (Join, SPARQL 1.1, section 18.5). `TooMany` comes
/// exactly where there are more than `most`.
pub fn join_rows(
    alloc: Global,
    left: &IdRows,
    right: &IdRows,
    most: usize,
) -> Result<IdRows, RowsFault>
    ensures rows { IfOk result (λ rows. AreExactly (IsJoined id_var (Contains left.now.rows) (Contains right.now.rows)) rows.rows) }
    ensures few { IfOk result (λ rows. length rows.rows ≤ most) }
    ensures fault { IfErr result (WhyNone most (IsJoined id_var (Contains left.now.rows) (Contains right.now.rows))) }
{
    let mut rows = IdRows::new(alloc);
    let near = Near::new(alloc, left, right)?;
    for one in left.as_slice() {
        let others = near.of(one)?;
        gather_passing(&mut rows, one, others, None, &NoTerms, most)?;
    }
    Ok(rows)
}

// A table without terms: a join has no condition that would look into one.
struct NoTerms;

impl TermTable for NoTerms {
    ghost terms = { λ table number. None };

    fn id_of(&self, _term: &Term) -> Option<TermId> {
        None
    }

    fn term_of(&self, _id: TermId) -> Option<&Term> {
        None
    }
}
