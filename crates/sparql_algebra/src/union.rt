//! The solutions of either of two lists.
ghost use Rattle.std.specs.Prelude.{◌≤◌, IfOk, IfErr, OnOk, length};
ghost use Rattle.sparql_algebra.specs.RowSets.{AreExactly, IsOfEither, WhyNone};

use crate::{IdRows, RowsFault};
use std::alloc::Global;

/// The solutions of either list, each once (Union, SPARQL 1.1, section 18.5). `TooMany` comes exactly where there are more
/// than `most`.
pub fn union_rows(
    alloc: Global,
    left: &IdRows,
    right: &IdRows,
    most: usize,
) -> Result<IdRows, RowsFault>
    ensures rows { IfOk result (λ rows. AreExactly (IsOfEither left.now.rows right.now.rows) rows.rows) }
    ensures few { IfOk result (λ rows. length rows.rows ≤ most) }
    ensures fault { IfErr result (WhyNone most (IsOfEither left.now.rows right.now.rows)) }
{
    let mut rows = IdRows::new(alloc);
    gather_all(&mut rows, left, most)?;
    gather_all(&mut rows, right, most)?;
    Ok(rows)
}

// Appends those of some rows that are not here.
fn gather_all(rows: &mut IdRows, more: &IdRows, most: usize) -> Result<(), RowsFault>
    requires { length rows.old.rows ≤ most }
    ensures ok { OnOk result (AreExactly (IsOfEither rows.old.rows more.now.rows) rows.new.rows) }
    ensures few { OnOk result (length rows.new.rows ≤ most) }
    ensures fault { IfErr result (WhyNone most (IsOfEither rows.old.rows more.now.rows)) }
{
    for row in more.as_slice() {
        rows.gather_within(row.copy()?, most)?;
    }
    Ok(())
}
