//! The solutions of a basic graph pattern.
ghost use Rattle.std.specs.Prelude.{◌≡◌, ◌≤◌, ◌+◌, [], IfOk, IfErr, OnOk, length};
ghost use Rattle.std.specs.List.{AllByRecursion};
ghost use Rattle.m3_terms.specs.TermTable.{NamesOnce};
ghost use Rattle.sparql_algebra.specs.Merged.{IsRising};
ghost use Rattle.sparql_algebra.specs.Patterns.{IsBgpSolution};
ghost use Rattle.sparql_algebra.specs.RowSets.{AreExactly};
ghost use Rattle.sparql_algebra.specs.TermSolutions.{id_var, solution_in, HasTerms};
ghost use Rattle.sparql_algebra.specs.Valid.{HasNamedTriple};
ghost use Rattle.pattern_join.specs.Bgp.{AreSolutions, StandsFor, WhyNoRows};
ghost use Rattle.pattern_join.specs.Meaning.{graph_in, AreMeant};
ghost use Rattle.pattern_join.specs.Scan.{scan};
ghost use Rattle.pattern_join.specs.Search.{IsOfOrReached};

use crate::extend::extended;
use crate::mask::mask_of;
use crate::{EvalFault, WIDTH_LIMIT};
use m3_terms::{Steps, TermId, TermTable};
use sparql_algebra::{IdRows, Mapping, PatternList, PatternTriple};
use std::alloc::Global;
use std::sync::ledger::Ledger;
use triple_index::View;

/// The solutions of a basic graph pattern over the graph of a view (SPARQL 1.1, section 18.3), each once, by the numbers
/// that the table gives to their terms.
///
/// The patterns are met one after another as they are written, so solutions of the first of them are never kept. Where
/// there are more than `WIDTH_LIMIT` solutions, it answers `TooWide` as soon as it has found one more, unless memory ran
/// out before. It calls itself once for each pattern.
pub fn bgp_all<T: TermTable, L: Ledger>(
    alloc: Global,
    view: &View<'_, L>,
    table: &T,
    bgp: &PatternList,
    steps: &mut Steps<L>,
) -> Result<IdRows, EvalFault>
    requires triples { AreMeant (T.terms table.now) view.now }
    requires variables { AllByRecursion (HasNamedTriple 16) bgp.now }
    ensures solutions { IfOk result (λ rows. AreSolutions (T.terms table.now) (IsBgpSolution bgp.now (graph_in (T.terms table.now) view.now)) rows.rows) }
    ensures narrow { IfOk result (λ rows. length rows.rows ≤ 65536) }
    ensures wide { IfErr result (WhyNoRows (StandsFor (T.terms table.now) (IsBgpSolution bgp.now (graph_in (T.terms table.now) view.now)))) }
    ensures reads { steps.new ≤ steps.old + scan bgp.now [] (graph_in (T.terms table.now) view.now) }
{
    // No two numbers have one term, whichever is asked for.
    table.term_of(TermId(0));
    let mut found = IdRows::new(alloc);
    let start = Mapping::new(alloc);
    search(&mut found, &start, bgp.as_slice(), view, table, steps)?;
    Ok(found)
}

// Appends the rows that the patterns reach from a row, but for those that are here.
fn search<T: TermTable, L: Ledger>(
    found: &mut IdRows,
    from: &Mapping,
    patterns: &[PatternTriple],
    view: &View<'_, L>,
    table: &T,
    steps: &mut Steps<L>,
) -> Result<(), EvalFault>
    requires narrow { length found.old.rows ≤ 65536 }
    requires rising { IsRising id_var from.now }
    requires named { HasTerms (T.terms table.now) from.now }
    requires once { NamesOnce (T.terms table.now) }
    requires triples { AreMeant (T.terms table.now) view.now }
    requires variables { AllByRecursion (HasNamedTriple 16) patterns.now }
    ensures ok { OnOk result (AreExactly (IsOfOrReached found.old.rows (T.terms table.now) view.now patterns.now from.now) found.new.rows) }
    ensures narrow { OnOk result (length found.new.rows ≤ 65536) }
    ensures wide { IfErr result (WhyNoRows (IsOfOrReached found.old.rows (T.terms table.now) view.now patterns.now from.now)) }
    ensures reads { steps.new ≤ steps.old + scan patterns.now (solution_in (T.terms table.now) from.now) (graph_in (T.terms table.now) view.now) }
{
    let Some((pattern, rest)) = patterns.split_first() else {
        found.gather_within(from.copy()?, WIDTH_LIMIT)?;
        return Ok(());
    };
    let Some(mask) = mask_of(pattern, from, table) else {
        return Ok(());
    };
    let mut rows = view.rows(&mask);
    while let Some(row) = rows.next(steps) {
        match extended(from, pattern, &row)? {
            None => {}
            Some(next) => search(found, &next, rest, view, table, steps)?,
        }
    }
    Ok(())
}
