//! The rows of a pattern's parts, and the answer to a query.
ghost use Rattle.std.specs.Prelude.{◌≡◌, ◌≤◌, ◌+◌, IfOk, IfErr, OnOk};
ghost use Rattle.sparql_algebra.specs.Listed.{width_of};
ghost use Rattle.sparql_algebra.specs.Valid.{IsValid};
ghost use Rattle.pattern_join.specs.Answers.{IsOverwide};
ghost use Rattle.pattern_join.specs.Meaning.{graph_in, AreMeant};
ghost use Rattle.query_eval.specs.Answered.{AreAnswer};
ghost use Rattle.query_eval.specs.PartRows.{ArePartRows, HasFewNames, row_count};
ghost use Rattle.query_eval.specs.Reads.{reads};

use crate::evaluate::evaluate;
use crate::lists::first;
use m3_terms::{Steps, TermId, TermTable};
use pattern_join::{EvalFault, WIDTH_LIMIT};
use sparql_algebra::{Algebra, IdRows, Query, project_rows};
use std::alloc::Global;
use std::sync::ledger::Ledger;
use triple_index::View;

/// The solutions of each part of a pattern over the graph of a view, from scratch, each once, by the numbers that the table
/// gives to their terms: first those of the pattern itself, then those of its left side's parts, then those of its right
/// side's.
///
/// They are listed from the basic graph patterns upwards. Where all lists together would have more than `WIDTH_LIMIT` rows
/// the answer is `TooWide`, unless memory ran out before; one basic graph pattern is listed up to that limit before it is
/// compared with what is left. The depth of the calls is that of the pattern.
pub fn part_rows<T: TermTable, L: Ledger>(
    alloc: Global,
    view: &View<'_, L>,
    table: &T,
    pattern: &Algebra,
    steps: &mut Steps<L>,
) -> Result<Vec<IdRows>, EvalFault>
    requires triples { AreMeant (T.terms table.now) view.now }
    requires variables { HasFewNames pattern.now }
    ensures rows { IfOk result (λ lists. ArePartRows (T.terms table.now) (graph_in (T.terms table.now) view.now) pattern.now lists.items) }
    ensures width { IfOk result (λ lists. row_count lists.items ≡ width_of pattern.now (graph_in (T.terms table.now) view.now)) }
    ensures narrow { OnOk result (width_of pattern.now (graph_in (T.terms table.now) view.now) ≤ 65536) }
    ensures wide { IfErr result (IsOverwide (width_of pattern.now (graph_in (T.terms table.now) view.now))) }
    ensures reads { steps.new ≤ steps.old + reads pattern.now (graph_in (T.terms table.now) view.now) }
{
    // No two numbers have one term, whichever is asked for.
    table.term_of(TermId(0));
    let mut room = WIDTH_LIMIT;
    evaluate(alloc, view, table, pattern, &mut room, steps)
}

/// The answer to a query over the graph of a view, from scratch: the projections of its solutions to the columns, each
/// once, by the numbers that the table gives to their terms.
///
/// The solutions of each part are listed by `part_rows`, with its limit and its depth of calls.
pub fn answer<T: TermTable, L: Ledger>(
    alloc: Global,
    view: &View<'_, L>,
    table: &T,
    query: &Query,
    steps: &mut Steps<L>,
) -> Result<IdRows, EvalFault>
    requires triples { AreMeant (T.terms table.now) view.now }
    requires valid { IsValid query.now }
    ensures rows { IfOk result (λ rows. AreAnswer (T.terms table.now) query.now (graph_in (T.terms table.now) view.now) rows.rows) }
    ensures narrow { OnOk result (width_of query.now.pattern (graph_in (T.terms table.now) view.now) ≤ 65536) }
    ensures wide { IfErr result (IsOverwide (width_of query.now.pattern (graph_in (T.terms table.now) view.now))) }
    ensures reads { steps.new ≤ steps.old + reads query.now.pattern (graph_in (T.terms table.now) view.now) }
{
    let lists = part_rows(alloc, view, table, &query.pattern, steps)?;
    Ok(project_rows(alloc, first(&lists), &query.columns)?)
}
