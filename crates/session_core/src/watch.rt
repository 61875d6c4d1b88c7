//! Standing queries as they are kept.
ghost use Rattle.std.specs.Prelude.{◌≡◌, ◌+◌, ◌≤◌, ◌<◌, IfOk, OnOk, MatchOption};
ghost use Rattle.answer_bodies.specs.Writing.{IsFull};
ghost use Rattle.session_core.specs.Numbers.{Numbers, graph_of, made, CanBeMade};
ghost use Rattle.session_core.specs.Reads.{wanted_cost};
ghost use Rattle.session_core.specs.Subscriptions.{answer_over, width_over, constants_in};
ghost use Rattle.session_core.specs.Watches.{asked_of, wanted_in, with_terms, IsAskedRightly, IsNamedBy, Stands, IsStarted, Leads, HasRoom, IsStepFor, IsSameWatch, IsPrepared, MayBeAnswered, IsAnswerOf, IsStepTo, HasNamed, IsAim};

use crate::asking::column_names;
use crate::facts::{Facts, Update};
use crate::numbers::{Listed, patterns_by, terms_of};
use answer_bodies::{Answer, Difference};
use delta_eval::{Standing, Step, Wanted, room_may_change, tables_may_grow};
use m3_intern::Draft;
use m3_terms::{NoMemory, Patterns, Steps, TermList, TermTable};
use pattern_join::EvalFault;
use sparql_algebra::{IdRows, Query};
use std::alloc::Global;
use std::sync::ledger::Ledger;
use triple_index::View;

/// What is asked for, before its terms have numbers.
#[derive(Drop)]
pub(crate) enum Asked {
    Templates(Patterns),
    Select(Query),
}

/// A standing query, with its templates by terms where it has any.
#[derive(Drop)]
pub(crate) struct Watch {
    templates: Patterns,
    standing: Standing,
}

/// What a watch comes to where the graph changes.
#[derive(Drop)]
pub(crate) enum Prepared {
    /// Its width would be over the limit.
    Wide,
    /// Its answer stays as it is.
    Same(Step),
    /// Its answer changes so.
    Differs(Step, Difference),
}

impl Asked {
    /// Copies of the terms that are named.
    pub fn constants(&self, alloc: Global) -> Result<TermList, NoMemory>
        ensures { IfOk result (λ terms. terms ≡ constants_in (asked_of self.now)) }
    {
        match self {
            Asked::Templates(templates) => terms_of(alloc, templates.as_slice()),
            Asked::Select(query) => {
                let mut terms = TermList::new(alloc);
                query.pattern.constants(&mut terms)?;
                Ok(terms)
            }
        }
    }
}

// What is asked for by numbers, and by terms where it is templates.
#[derive(Drop)]
struct Aim {
    templates: Patterns,
    wanted: Wanted,
}

// What is asked for by the numbers of a table, which has all terms that are named.
fn aim_of<T: Listed>(alloc: Global, table: &T, asked: Asked) -> Result<Aim, NoMemory>
    requires named { HasNamed (T.listed table.now) (asked_of asked) }
    requires rightly { IsAskedRightly asked }
    ensures { IfOk result (λ aim. IsAim (T.listed table.now) (asked_of asked) aim.templates aim.wanted) }
{
    match asked {
        Asked::Templates(templates) => {
            let ids = patterns_by(alloc, table, templates.as_slice())?;
            Ok(Aim {
                templates,
                wanted: Wanted::Templates(ids),
            })
        }
        Asked::Select(query) => Ok(Aim {
            templates: Patterns::new(alloc),
            wanted: Wanted::Select(query),
        }),
    }
}

// The answer that rows of numbers are.
fn answer_of<T: TermTable>(
    alloc: Global,
    wanted: &Wanted,
    rows: &IdRows,
    table: &T,
) -> Result<Answer, NoMemory>
    requires { MayBeAnswered (T.terms table.now) wanted.now rows.now.rows }
    ensures answer { IfOk result (IsAnswerOf (T.terms table.now) wanted.now rows.now.rows) }
    ensures full { IfOk result IsFull }
{
    match wanted {
        Wanted::Templates(_) => Answer::of_triples(alloc, rows, table),
        Wanted::Select(query) => {
            let columns = column_names(alloc, query)?;
            Answer::of_rows(alloc, &columns, &query.columns, rows, table)
        }
    }
}

impl Watch {
    /// Evaluates what is asked for, or gives `None` where its width is over the limit. Its new terms are in the draft.
    pub fn start<L: Ledger>(
        alloc: Global,
        facts: &Facts,
        draft: &Draft,
        asked: Asked,
        steps: &mut Steps<L>,
    ) -> Result<Option<Watch>, NoMemory>
        requires named { IsNamedBy facts.now (constants_in (asked_of asked)) draft.now }
        requires rightly { IsAskedRightly asked }
        ensures watch { IfOk result (λ found. MatchOption found (65536 < width_over (graph_of facts.now) (asked_of asked)) (IsStarted (with_terms facts.now draft.now) (asked_of asked))) }
        ensures reads { steps.new ≤ steps.old + wanted_cost (graph_of facts.now) (asked_of asked) }
    {
        let table = draft.with(&facts.terms);
        let view: View<'_, L> = View::plain(&facts.index);
        let aim = aim_of(alloc, &table, asked)?;
        match Standing::start(alloc, &view, &table, aim.wanted, steps) {
            Ok(standing) => Ok(Some(Watch {
                templates: aim.templates,
                standing,
            })),
            Err(EvalFault::TooWide) => Ok(None),
            Err(EvalFault::NoMemory) => Err(NoMemory),
        }
    }

    /// Its answer. Its new terms are in the draft.
    pub fn answer(&self, alloc: Global, facts: &Facts, draft: &Draft) -> Result<Answer, NoMemory>
        requires named { IsNamedBy facts.now (constants_in (wanted_in self.now)) draft.now }
        requires stands { Stands (with_terms facts.now draft.now) self.now }
        ensures answer { IfOk result (λ answer. answer ≡ answer_over (graph_of facts.now) (wanted_in self.now)) }
        ensures full { IfOk result IsFull }
    {
        let table = draft.with(&facts.terms);
        answer_of(
            alloc,
            self.standing.wanted(),
            self.standing.answer(),
            &table,
        )
    }

    /// What it comes to after an update. It changes nothing.
    pub fn prepare<L: Ledger>(
        &self,
        alloc: Global,
        facts: &Facts,
        update: &Update,
        steps: &mut Steps<L>,
    ) -> Result<Prepared, NoMemory>
        requires stands { Stands facts.now self.now }
        requires update { CanBeMade facts.now update.now.draft update.now.change }
        ensures prepared { IfOk result (IsPrepared facts.now (made facts.now update.now.draft update.now.change) self.now) }
        ensures reads { steps.new ≤ steps.old + wanted_cost (graph_of (made facts.now update.now.draft update.now.change)) (wanted_in self.now) }
    {
        tables_may_grow();
        let table = update.draft.with(&facts.terms);
        let old: View<'_, L> = View::plain(&facts.index);
        let new: View<'_, L> = View::after(&facts.index, &update.change);
        match self
            .standing
            .prepare(alloc, &old, &new, &table, &update.change, steps)
        {
            Ok(step) => self.differing(alloc, facts, update, step),
            Err(EvalFault::TooWide) => Ok(Prepared::Wide),
            Err(EvalFault::NoMemory) => Err(NoMemory),
        }
    }

    // What a step comes to.
    fn differing(
        &self,
        alloc: Global,
        facts: &Facts,
        update: &Update,
        step: Step,
    ) -> Result<Prepared, NoMemory>
        requires stands { Stands facts.now self.now }
        requires update { CanBeMade facts.now update.now.draft update.now.change }
        requires step { IsStepTo facts.now (made facts.now update.now.draft update.now.change) self.now step }
        ensures { IfOk result (IsPrepared facts.now (made facts.now update.now.draft update.now.change) self.now) }
    {
        tables_may_grow();
        let table = update.draft.with(&facts.terms);
        if step.new_rows().is_empty() && step.obsolete_rows().is_empty() {
            return Ok(Prepared::Same(step));
        }
        let wanted = self.standing.wanted();
        let added = answer_of(alloc, wanted, step.new_rows(), &table)?;
        let obsolete = answer_of(alloc, wanted, step.obsolete_rows(), &table)?;
        Ok(Prepared::Differs(step, Difference { added, obsolete }))
    }

    /// Makes room for a step. After `NoMemory` it is the same.
    pub fn reserve(&mut self, step: &Step) -> Result<(), NoMemory>
        requires { IsStepFor self.old step.now }
        ensures same { IsSameWatch self.old self.new }
        ensures room { OnOk result (HasRoom self.new step.now) }
        ensures leads { (numbers : Numbers) → Leads self.old step.now numbers → Leads self.new step.now numbers }
    {
        room_may_change();
        self.standing.reserve(step)
    }

    /// Takes a step, for which there is room. It takes no memory.
    pub fn commit(&mut self, step: Step)
        requires room { HasRoom self.old step }
        requires step { IsStepFor self.old step }
        ensures wanted { wanted_in self.new ≡ wanted_in self.old }
        ensures stands { (numbers : Numbers) → Leads self.old step numbers → Stands numbers self.new }
    {
        self.standing.commit(step);
    }
}
