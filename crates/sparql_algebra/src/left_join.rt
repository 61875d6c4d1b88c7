//! The merges of compatible pairs on which a condition is true, and the left solutions that have none.
ghost use Rattle.std.specs.Prelude.{◌≤◌, Option, IfOk, IfErr, OnOk, Contains, length, option_copied};
ghost use Rattle.sparql_algebra.specs.Merged.{IsLeftJoined};
ghost use Rattle.sparql_algebra.specs.TermSolutions.{id_var};
ghost use Rattle.sparql_algebra.specs.RowSets.{AreExactly, IsOfOrLeft, RowPasses, WhyNone};

use crate::near::Near;
use crate::passing::gather_passing;
use crate::{Expr, IdRows, Mapping, RowsFault};
use m3_terms::TermTable;
use std::alloc::Global;

/// The merges of compatible pairs on which the condition is true, and each left solution for which there is no such
/// merge, each once (LeftJoin, SPARQL 1.1, section 18.5). Without a condition it counts as true. `TooMany` comes exactly
/// where there are more than `most`.
pub fn left_join_rows<T: TermTable>(
    alloc: Global,
    left: &IdRows,
    right: &IdRows,
    condition: Option<&Expr>,
    table: &T,
    most: usize,
) -> Result<IdRows, RowsFault>
    ensures rows { IfOk result (λ rows. AreExactly (IsLeftJoined id_var (Contains left.now.rows) (Contains right.now.rows) (RowPasses (T.terms table.now) (option_copied condition.entry))) rows.rows) }
    ensures few { IfOk result (λ rows. length rows.rows ≤ most) }
    ensures fault { IfErr result (WhyNone most (IsLeftJoined id_var (Contains left.now.rows) (Contains right.now.rows) (RowPasses (T.terms table.now) (option_copied condition.entry)))) }
{
    let mut rows = IdRows::new(alloc);
    let near = Near::new(alloc, left, right)?;
    for one in left.as_slice() {
        let others = near.of(one)?;
        gather_left(&mut rows, one, others, condition, table, most)?;
    }
    Ok(rows)
}

// Appends the merges of one solution that pass, or the solution itself where there is none.
fn gather_left<T: TermTable>(
    rows: &mut IdRows,
    left: &Mapping,
    others: &[Mapping],
    condition: Option<&Expr>,
    table: &T,
    most: usize,
) -> Result<(), RowsFault>
    requires { length rows.old.rows ≤ most }
    ensures ok { OnOk result (AreExactly (IsOfOrLeft rows.old.rows left.now (Contains others.now) (RowPasses (T.terms table.now) (option_copied condition.entry))) rows.new.rows) }
    ensures few { OnOk result (length rows.new.rows ≤ most) }
    ensures fault { IfErr result (WhyNone most (IsOfOrLeft rows.old.rows left.now (Contains others.now) (RowPasses (T.terms table.now) (option_copied condition.entry)))) }
{
    let found = gather_passing(rows, left, others, condition, table, most)?;
    if !found {
        rows.gather_within(left.copy()?, most)?;
    }
    Ok(())
}
