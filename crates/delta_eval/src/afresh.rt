//! The rows of what is wanted, from scratch.
ghost use Rattle.std.specs.Prelude.{◌≤◌, ◌+◌, IfOk, IfErr, OnOk};
ghost use Rattle.sparql_algebra.specs.Listed.{width_of};
ghost use Rattle.sparql_algebra.specs.Valid.{IsValid};
ghost use Rattle.triple_index.specs.Fits.{fits};
ghost use Rattle.triple_index.specs.Graphs.{count_fitting};
ghost use Rattle.pattern_join.specs.Answers.{width, IsOverwide};
ghost use Rattle.pattern_join.specs.Meaning.{graph_in, AreMeant};
ghost use Rattle.query_eval.specs.Reads.{reads};
ghost use Rattle.delta_eval.specs.Standing.{AreOf, AreOfTemplates, AreOfQuery};
ghost use Rattle.delta_eval.specs.Wanted.{MayBeWanted, wanted_width, wanted_reads};

use crate::wanted::Wanted;
use m3_terms::{Steps, TermTable};
use pattern_join::{EvalFault, matches, rows_of};
use query_eval::part_rows;
use sparql_algebra::{IdRows, Query, project_rows};
use std::alloc::Global;
use std::sync::ledger::Ledger;
use triple_index::{IdPattern, IdPatterns, View};

// The rows of each part of a pattern, and those of the answer.
#[derive(Drop)]
pub(crate) struct Afresh {
    pub(crate) parts: Vec<IdRows>,
    pub(crate) answer: IdRows,
}

// The rows of what is wanted over a view.
pub(crate) fn evaluated<T: TermTable, L: Ledger>(
    alloc: Global,
    view: &View<'_, L>,
    table: &T,
    wanted: &Wanted,
    steps: &mut Steps<L>,
) -> Result<Afresh, EvalFault>
    requires triples { AreMeant (T.terms table.now) view.now }
    requires wanted { MayBeWanted wanted.now }
    ensures rows { IfOk result (λ rows. AreOf (T.terms table.now) view.now wanted.now rows.parts.items rows.answer) }
    ensures narrow { OnOk result (wanted_width (T.terms table.now) wanted.now view.now ≤ 65536) }
    ensures wide { IfErr result (IsOverwide (wanted_width (T.terms table.now) wanted.now view.now)) }
    ensures reads { steps.new ≤ steps.old + wanted_reads (T.terms table.now) wanted.now view.now }
{
    match wanted {
        Wanted::Templates(templates) => of_templates(alloc, view, templates, steps),
        Wanted::Select(query) => of_query(alloc, view, table, query, steps),
    }
}

// The rows of the triples that fit templates.
fn of_templates<L: Ledger>(
    alloc: Global,
    view: &View<'_, L>,
    templates: &IdPatterns,
    steps: &mut Steps<L>,
) -> Result<Afresh, EvalFault>
    ensures rows { IfOk result (λ rows. AreOfTemplates view.now templates.now rows.parts.items rows.answer) }
    ensures narrow { OnOk result (width templates.now view.now ≤ 65536) }
    ensures wide { IfErr result (IsOverwide (width templates.now view.now)) }
    ensures reads { steps.new ≤ steps.old + count_fitting fits view.now templates.now }
{
    // The triples of a view are in order, whichever are asked for.
    view.rows(&IdPattern {
        subject: None,
        predicate: None,
        object: None,
    });
    let triples = matches(alloc, view, templates, steps)?;
    Ok(Afresh {
        parts: Vec::new(alloc),
        answer: rows_of(alloc, &triples)?,
    })
}

// The rows of a query.
fn of_query<T: TermTable, L: Ledger>(
    alloc: Global,
    view: &View<'_, L>,
    table: &T,
    query: &Query,
    steps: &mut Steps<L>,
) -> Result<Afresh, EvalFault>
    requires triples { AreMeant (T.terms table.now) view.now }
    requires valid { IsValid query.now }
    ensures rows { IfOk result (λ rows. AreOfQuery (T.terms table.now) (graph_in (T.terms table.now) view.now) query.now rows.parts.items rows.answer) }
    ensures narrow { OnOk result (width_of query.now.pattern (graph_in (T.terms table.now) view.now) ≤ 65536) }
    ensures wide { IfErr result (IsOverwide (width_of query.now.pattern (graph_in (T.terms table.now) view.now))) }
    ensures reads { steps.new ≤ steps.old + reads query.now.pattern (graph_in (T.terms table.now) view.now) }
{
    let parts = part_rows(alloc, view, table, &query.pattern, steps)?;
    let answer = project_rows(alloc, &parts[0], &query.columns)?;
    Ok(Afresh { parts, answer })
}
