//! The solutions on which a condition is true.
ghost use Rattle.std.specs.Prelude.{◌≤◌, IfOk, IfErr, Contains, length};
ghost use Rattle.sparql_algebra.specs.RowSets.{AreExactly, IsFiltered, WhyNone};

use crate::{Expr, IdRows, RowsFault};
use m3_terms::TermTable;
use std::alloc::Global;

/// The solutions on which the condition is true (Filter, SPARQL 1.1, section 18.5). `TooMany` comes exactly where there are
/// more than `most`.
pub fn filter_rows<T: TermTable>(
    alloc: Global,
    condition: &Expr,
    rows: &IdRows,
    table: &T,
    most: usize,
) -> Result<IdRows, RowsFault>
    ensures rows { IfOk result (λ kept. AreExactly (IsFiltered (T.terms table.now) condition.now (Contains rows.now.rows)) kept.rows) }
    ensures few { IfOk result (λ kept. length kept.rows ≤ most) }
    ensures fault { IfErr result (WhyNone most (IsFiltered (T.terms table.now) condition.now (Contains rows.now.rows))) }
{
    let mut kept = IdRows::new(alloc);
    for row in rows.as_slice() {
        if condition.truth(row, table).is_true() {
            kept.gather_within(row.copy()?, most)?;
        }
    }
    Ok(kept)
}
