//! The projections of solutions to columns.
ghost use Rattle.std.specs.Prelude.{IfOk, Contains};
ghost use Rattle.sparql_algebra.specs.RowSets.{AreExactly, IsProjectedRow};

use crate::{IdRows, VarList};
use m3_terms::NoMemory;
use std::alloc::Global;

/// The projections of some solutions to the columns, each once (Project, SPARQL 1.1, section 18.5). The variables keep
/// their numbers.
pub fn project_rows(alloc: Global, rows: &IdRows, columns: &VarList) -> Result<IdRows, NoMemory>
    ensures { IfOk result (λ projections. AreExactly (IsProjectedRow columns.now (Contains rows.now.rows)) projections.rows) }
{
    let mut projections = IdRows::new(alloc);
    for row in rows.as_slice() {
        projections.gather(row.project(columns)?)?;
    }
    Ok(projections)
}
