//! The merges of one solution with others that pass a condition.
ghost use Rattle.std.specs.Prelude.{◌≡◌, ◌↔◌, ◌≤◌, Option, None, IfOk, IfErr, OnOk, Contains, IsTrue, length, option_copied};
ghost use Rattle.sparql_algebra.specs.RowSets.{AreExactly, IsOfOrPassing, IsPassingMerge, TellsPassing, RowPasses, WhyNone};

use crate::{Expr, IdRows, Mapping, RowsFault};
use m3_terms::{NoMemory, TermTable};

// Appends the merges of one solution with those others that are compatible with it, where the condition is true, and
// says whether there is one.
pub(crate) fn gather_passing<T: TermTable>(
    rows: &mut IdRows,
    left: &Mapping,
    others: &[Mapping],
    condition: Option<&Expr>,
    table: &T,
    most: usize,
) -> Result<bool, RowsFault>
    requires { length rows.old.rows ≤ most }
    ensures ok { OnOk result (AreExactly (IsOfOrPassing rows.old.rows left.now (Contains others.now) (RowPasses (T.terms table.now) (option_copied condition.entry))) rows.new.rows) }
    ensures few { OnOk result (length rows.new.rows ≤ most) }
    ensures found { IfOk result (λ found. TellsPassing found left.now (Contains others.now) (RowPasses (T.terms table.now) (option_copied condition.entry))) }
    ensures fault { IfErr result (WhyNone most (IsOfOrPassing rows.old.rows left.now (Contains others.now) (RowPasses (T.terms table.now) (option_copied condition.entry)))) }
{
    let mut found = false;
    for right in others {
        match passing_merge(left, right, condition, table)? {
            None => {}
            Some(merged) => {
                rows.gather_within(merged, most)?;
                found = true;
            }
        }
    }
    Ok(found)
}

// The merge of two solutions, if they are compatible and the condition is true on it.
fn passing_merge<T: TermTable>(
    left: &Mapping,
    right: &Mapping,
    condition: Option<&Expr>,
    table: &T,
) -> Result<Option<Mapping>, NoMemory>
    ensures { IfOk result (IsPassingMerge left.now right.now (RowPasses (T.terms table.now) (option_copied condition.entry))) }
{
    if !left.compatible(right) {
        return Ok(None);
    }
    let merged = left.merge(right)?;
    if passes(condition, &merged, table) {
        Ok(Some(merged))
    } else {
        Ok(None)
    }
}

// Whether the condition, if there is one, is true for a solution.
fn passes<T: TermTable>(condition: Option<&Expr>, row: &Mapping, table: &T) -> bool
    ensures { IsTrue result ↔ RowPasses (T.terms table.now) (option_copied condition.entry) row.now }
{
    match condition {
        None => true,
        Some(condition) => condition.truth(row, table).is_true(),
    }
}
