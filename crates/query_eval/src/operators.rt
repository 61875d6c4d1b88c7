//! The solutions of a part from those of its sides, and behind them those of its sides' parts.
ghost use Rattle.std.specs.Prelude.{◌<◌, ◌++◌, length, MatchResult, Contains, Option, option_copied};
ghost use Rattle.sparql_algebra.specs.Merged.{IsJoined, IsLeftJoined};
ghost use Rattle.sparql_algebra.specs.RowSets.{IsOfEither, IsFiltered, RowPasses};
ghost use Rattle.sparql_algebra.specs.TermSolutions.{id_var};
ghost use Rattle.query_eval.specs.Parts.{AreTaken, WhyNotTaken, first_rows};

use crate::lists::{first, with_side, with_sides};
use crate::taken::taken;
use m3_terms::TermTable;
use pattern_join::EvalFault;
use sparql_algebra::{Expr, IdRows, filter_rows, join_rows, left_join_rows, union_rows};
use std::alloc::Global;

// The merges of compatible pairs.
pub(crate) fn join(
    alloc: Global,
    left: Vec<IdRows>,
    right: Vec<IdRows>,
    room: &mut usize,
) -> Result<Vec<IdRows>, EvalFault>
    requires left { 0 < length left.items }
    requires right { 0 < length right.items }
    ensures { MatchResult result (λ lists. AreTaken room.old room.new (IsJoined id_var (Contains (first_rows left.items)) (Contains (first_rows right.items))) (left.items ++ right.items) lists.items) (WhyNotTaken room.old (IsJoined id_var (Contains (first_rows left.items)) (Contains (first_rows right.items)))) }
{
    let rows = join_rows(alloc, first(&left), first(&right), *room)?;
    Ok(with_sides(taken(rows, room), left, right)?)
}

// The solutions of either side.
pub(crate) fn union(
    alloc: Global,
    left: Vec<IdRows>,
    right: Vec<IdRows>,
    room: &mut usize,
) -> Result<Vec<IdRows>, EvalFault>
    requires left { 0 < length left.items }
    requires right { 0 < length right.items }
    ensures { MatchResult result (λ lists. AreTaken room.old room.new (IsOfEither (first_rows left.items) (first_rows right.items)) (left.items ++ right.items) lists.items) (WhyNotTaken room.old (IsOfEither (first_rows left.items) (first_rows right.items))) }
{
    let rows = union_rows(alloc, first(&left), first(&right), *room)?;
    Ok(with_sides(taken(rows, room), left, right)?)
}

// The merges that pass the condition, and the left solutions that have none.
pub(crate) fn left_join<T: TermTable>(
    alloc: Global,
    left: Vec<IdRows>,
    right: Vec<IdRows>,
    condition: Option<&Expr>,
    table: &T,
    room: &mut usize,
) -> Result<Vec<IdRows>, EvalFault>
    requires left { 0 < length left.items }
    requires right { 0 < length right.items }
    ensures { MatchResult result (λ lists. AreTaken room.old room.new (IsLeftJoined id_var (Contains (first_rows left.items)) (Contains (first_rows right.items)) (RowPasses (T.terms table.now) (option_copied condition.entry))) (left.items ++ right.items) lists.items) (WhyNotTaken room.old (IsLeftJoined id_var (Contains (first_rows left.items)) (Contains (first_rows right.items)) (RowPasses (T.terms table.now) (option_copied condition.entry)))) }
{
    let rows = left_join_rows(alloc, first(&left), first(&right), condition, table, *room)?;
    Ok(with_sides(taken(rows, room), left, right)?)
}

// The solutions on which the condition is true.
pub(crate) fn filter<T: TermTable>(
    alloc: Global,
    condition: &Expr,
    inner: Vec<IdRows>,
    table: &T,
    room: &mut usize,
) -> Result<Vec<IdRows>, EvalFault>
    requires { 0 < length inner.items }
    ensures { MatchResult result (λ lists. AreTaken room.old room.new (IsFiltered (T.terms table.now) condition.now (Contains (first_rows inner.items))) inner.items lists.items) (WhyNotTaken room.old (IsFiltered (T.terms table.now) condition.now (Contains (first_rows inner.items)))) }
{
    let rows = filter_rows(alloc, condition, first(&inner), table, *room)?;
    Ok(with_side(taken(rows, room), inner)?)
}
