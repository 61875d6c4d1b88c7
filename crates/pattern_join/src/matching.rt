//! The triples that fit a list of templates.
ghost use Rattle.std.specs.Prelude.{◌≡◌, ◌≤◌, ◌+◌, ◌++◌, IfOk, IfErr, OnOk, length};
ghost use Rattle.std.specs.List.Sorted.{IsPermutation, IsSorted};
ghost use Rattle.triple_index.specs.Fits.{fits};
ghost use Rattle.triple_index.specs.Graphs.{count_fitting, fits_one, without};
ghost use Rattle.triple_index.specs.IdOrder.{id_triple_cmp};
ghost use Rattle.pattern_join.specs.Answers.{answer, width, IsOverwide};
ghost use Rattle.pattern_join.specs.Reading.{IsRead};

use crate::EvalFault;
use m3_terms::{Items, Steps};
use std::alloc::Global;
use std::sync::ledger::Ledger;
use triple_index::{IdPattern, IdPatterns, IdTriple, IdTriples, RowsOf, View};

/// The most triples that an answer may have.
pub const WIDTH_LIMIT: usize = 65_536;

/// The triples of a view that fit at least one of the templates, in their order, each once.
///
/// It reads no more rows than the triples that fit, summed over the templates, and keeps no more triples than
/// `WIDTH_LIMIT` at any time. Where more fit, it answers `TooWide` as soon as it has read one more, unless memory ran out
/// before.
pub fn matches<L: Ledger>(
    alloc: Global,
    view: &View<'_, L>,
    templates: &IdPatterns,
    steps: &mut Steps<L>,
) -> Result<IdTriples, EvalFault>
    ensures matches { IfOk result (λ triples. triples ≡ answer templates.now view.now) }
    ensures narrow { IfOk result (λ triples. length triples ≤ 65536) }
    ensures wide { IfErr result (IsOverwide (width templates.now view.now)) }
    ensures reads { steps.new ≤ steps.old + count_fitting fits view.now templates.now }
{
    let found = read_all(alloc, view, templates.as_slice(), steps)?;
    Ok(in_order(found))
}

// The same triples in order.
fn in_order(triples: IdTriples) -> IdTriples
    ensures same { IsPermutation triples result }
    ensures sorted { IsSorted id_triple_cmp result }
{
    let mut triples = triples.into_vec();
    triples.sort_unstable();
    Items::from_vec(triples)
}

// The triples that fit a template, each once, template after template.
fn read_all<L: Ledger>(
    alloc: Global,
    view: &View<'_, L>,
    templates: &[IdPattern],
    steps: &mut Steps<L>,
) -> Result<IdTriples, EvalFault>
    ensures read { IfOk result (IsRead templates.now view.now) }
    ensures wide { IfErr result (IsOverwide (width templates.now view.now)) }
    ensures reads { steps.new ≤ steps.old + count_fitting fits view.now templates.now }
{
    let mut found = IdTriples::new(alloc);
    for (at, template) in templates.iter().enumerate() {
        let earlier = templates.split_at(at).0;
        read_rows(&mut found, earlier, &mut view.rows(template), steps)?;
    }
    Ok(found)
}

// Puts the rows that are still to come behind others, without those that fit an earlier template.
fn read_rows<L: Ledger>(
    into: &mut IdTriples,
    earlier: &[IdPattern],
    rows: &mut RowsOf<'_, L>,
    steps: &mut Steps<L>,
) -> Result<(), EvalFault>
    requires { length into.old ≤ 65536 }
    ensures ok { OnOk result (into.new ≡ into.old ++ without fits rows.old earlier.now) }
    ensures narrow { OnOk result (length into.new ≤ 65536) }
    ensures wide { IfErr result (IsOverwide (length (into.old ++ without fits rows.old earlier.now))) }
    ensures reads { steps.new ≤ steps.old + length rows.old }
{
    while let Some(row) = rows.next(steps) {
        let is_known = fits_any(earlier, &row);
        if !is_known {
            let width = into.len();
            if width >= WIDTH_LIMIT {
                return Err(EvalFault::TooWide);
            }
            into.push(row)?;
        }
    }
    Ok(())
}

// Whether a triple fits one of the templates.
fn fits_any(templates: &[IdPattern], triple: &IdTriple) -> bool
    ensures { result ≡ fits_one fits templates.now triple.now }
{
    templates.iter().any(|template| template.fits(triple))
}
