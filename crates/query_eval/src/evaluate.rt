//! The solutions of the parts of a pattern, bottom up.
ghost use Rattle.std.specs.Prelude.{◌≤◌, ◌+◌, [], MatchResult};
ghost use Rattle.std.specs.List.{AllByRecursion};
ghost use Rattle.m3_terms.specs.TermTable.{NamesOnce};
ghost use Rattle.sparql_algebra.specs.Valid.{HasNamedTriple};
ghost use Rattle.pattern_join.specs.Meaning.{graph_in, AreMeant};
ghost use Rattle.pattern_join.specs.Scan.{scan};
ghost use Rattle.query_eval.specs.PartRows.{HasFewNames};
ghost use Rattle.query_eval.specs.Parts.{AreEvaluated, WhyNotEvaluated};
ghost use Rattle.query_eval.specs.Reads.{reads};

use crate::lists::with_side;
use crate::operators::{filter, join, left_join, union};
use crate::taken::taken;
use m3_terms::{Steps, TermTable};
use pattern_join::{EvalFault, bgp_all};
use sparql_algebra::{Algebra, IdRows, PatternList};
use std::alloc::Global;
use std::sync::ledger::Ledger;
use triple_index::View;

// The solutions of each part of a pattern, each once: those of the pattern itself first, then those of the parts of its
// left side, then those of its right side. The room is what is left of the limit on the width; the width of the pattern
// is taken off it. It calls itself for each side of a part.
pub(crate) fn evaluate<T: TermTable, L: Ledger>(
    alloc: Global,
    view: &View<'_, L>,
    table: &T,
    pattern: &Algebra,
    room: &mut usize,
    steps: &mut Steps<L>,
) -> Result<Vec<IdRows>, EvalFault>
    requires once { NamesOnce (T.terms table.now) }
    requires triples { AreMeant (T.terms table.now) view.now }
    requires variables { HasFewNames pattern.now }
    requires room { room.old ≤ 65536 }
    ensures part { MatchResult result (λ lists. AreEvaluated (T.terms table.now) (graph_in (T.terms table.now) view.now) pattern.now room.old room.new lists.items) (WhyNotEvaluated (graph_in (T.terms table.now) view.now) pattern.now room.old) }
    ensures reads { steps.new ≤ steps.old + reads pattern.now (graph_in (T.terms table.now) view.now) }
{
    match pattern {
        Algebra::Bgp(bgp) => basic(alloc, view, table, bgp, room, steps),
        Algebra::Join(left, right) => {
            let left = evaluate(alloc, view, table, left.get(), room, steps)?;
            let right = evaluate(alloc, view, table, right.get(), room, steps)?;
            join(alloc, left, right, room)
        }
        Algebra::Union(left, right) => {
            let left = evaluate(alloc, view, table, left.get(), room, steps)?;
            let right = evaluate(alloc, view, table, right.get(), room, steps)?;
            union(alloc, left, right, room)
        }
        Algebra::LeftJoin(left, right, condition) => {
            let left = evaluate(alloc, view, table, left.get(), room, steps)?;
            let right = evaluate(alloc, view, table, right.get(), room, steps)?;
            left_join(alloc, left, right, condition.as_ref(), table, room)
        }
        Algebra::Filter(condition, inner) => {
            let inner = evaluate(alloc, view, table, inner.get(), room, steps)?;
            filter(alloc, condition, inner, table, room)
        }
    }
}

// The solutions of a basic graph pattern, as its only part.
fn basic<T: TermTable, L: Ledger>(
    alloc: Global,
    view: &View<'_, L>,
    table: &T,
    bgp: &PatternList,
    room: &mut usize,
    steps: &mut Steps<L>,
) -> Result<Vec<IdRows>, EvalFault>
    requires once { NamesOnce (T.terms table.now) }
    requires triples { AreMeant (T.terms table.now) view.now }
    requires variables { AllByRecursion (HasNamedTriple 16) bgp.now }
    requires room { room.old ≤ 65536 }
    ensures part { MatchResult result (λ lists. AreEvaluated (T.terms table.now) (graph_in (T.terms table.now) view.now) (Algebra.Bgp bgp.now) room.old room.new lists.items) (WhyNotEvaluated (graph_in (T.terms table.now) view.now) (Algebra.Bgp bgp.now) room.old) }
    ensures reads { steps.new ≤ steps.old + scan bgp.now [] (graph_in (T.terms table.now) view.now) }
{
    let rows = bgp_all(alloc, view, table, bgp, steps)?;
    if rows.len() > *room {
        return Err(EvalFault::TooWide);
    }
    Ok(with_side(taken(rows, room), Vec::new(alloc))?)
}
