use crate::afresh::evaluated;
use crate::apply::apply;
use crate::changed::Changed;
use crate::lists::{apply_all, differences, reserve_all};
use crate::step::Step;
use crate::wanted::Wanted;
use m3_terms::{NoMemory, Steps, TermId, TermTable};
use pattern_join::EvalFault;
use sparql_algebra::IdRows;
use std::alloc::Global;
use std::marker::Model;
use std::sync::ledger::Ledger;
use triple_index::{Change, View};

/// A standing query: what is wanted, the solutions of each part of its pattern, and the answer.
#[derive(Drop)]
pub struct Standing {
    wanted: Wanted,
    parts: Vec<IdRows>,
    answer: IdRows,
}

impl Model for Standing {
    ghost use Rattle.std.specs.Coded.{codes};
    ghost use Rattle.delta_eval.specs.Standing.{Kept};
    ghost use Rattle.delta_eval.specs.contracts.wanted.Wanted as wanted_type;

    ghost Value = { Kept };

    ghost coded = { Prim.hlevel (codes, wanted_type.the_row.coded) };

    ghost view = { λ standing. record { wanted = standing.wanted; parts = standing.parts.items; answer = standing.answer } };
}

impl Standing {
    ghost use Rattle.std.specs.Prelude.{◌≡◌, ◌≤◌, ◌+◌, IfOk, IfErr, IsOk, OnOk};
    ghost use Rattle.sparql_algebra.specs.RowSets.{AreExactly};
    ghost use Rattle.triple_index.specs.Changes.{IsNet, changed};
    ghost use Rattle.pattern_join.specs.Answers.{IsOverwide};
    ghost use Rattle.pattern_join.specs.Meaning.{AreMeant};
    ghost use Rattle.delta_eval.specs.Standing.{StandsOver, IsStepOf, HasRoom, KeepsRows, IsAfter, StepsTo};
    ghost use Rattle.delta_eval.specs.Wanted.{MayBeWanted, IsWantedOnly, wanted_width, wanted_reads};

    /// A standing query over the graph of a view. The depth of the calls is that of the pattern.
    ///
    /// Where the width is greater than 65,536 it is `TooWide`, unless memory ran out before.
    pub fn start<T: TermTable, L: Ledger>(
        alloc: Global,
        view: &View<'_, L>,
        table: &T,
        wanted: Wanted,
        steps: &mut Steps<L>,
    ) -> Result<Standing, EvalFault>
        requires triples { AreMeant (T.terms table.now) view.now }
        requires valid { MayBeWanted wanted }
        ensures stands { IfOk result (StandsOver (T.terms table.now) view.now) }
        ensures wanted { IfOk result (λ standing. standing.wanted ≡ wanted) }
        ensures narrow { OnOk result (wanted_width (T.terms table.now) wanted view.now ≤ 65536) }
        ensures wide { IfErr result (IsOverwide (wanted_width (T.terms table.now) wanted view.now)) }
        ensures reads { steps.new ≤ steps.old + wanted_reads (T.terms table.now) wanted view.now }
    {
        let rows = evaluated(alloc, view, table, &wanted, steps)?;
        Ok(Standing {
            wanted,
            parts: rows.parts,
            answer: rows.answer,
        })
    }

    /// What is wanted.
    pub fn wanted(&self) -> &Wanted
        ensures { result.now ≡ self.now.wanted }
    {
        &self.wanted
    }

    /// The rows of the answer, each once, in any order.
    pub fn answer(&self) -> &IdRows
        ensures { result.now ≡ self.now.answer }
    {
        &self.answer
    }

    /// The step from the graph of one view to that of another, which is the first one after a net change. It is made by
    /// `commit`, after `reserve`, and changes nothing before.
    ///
    /// Where the width over the new view is greater than 65,536 it is `TooWide`, unless memory ran out before.
    pub fn prepare<T: TermTable, L: Ledger>(
        &self,
        alloc: Global,
        old: &View<'_, L>,
        new: &View<'_, L>,
        table: &T,
        change: &Change,
        steps: &mut Steps<L>,
    ) -> Result<Step, EvalFault>
        requires stands { StandsOver (T.terms table.now) old.now self.now }
        requires triples { AreMeant (T.terms table.now) new.now }
        requires net { IsNet old.now change.now }
        requires changes { new.now ≡ changed old.now change.now }
        ensures step { IfOk result (IsStepOf self.now) }
        ensures after { IfOk result (StepsTo (T.terms table.now) new.now self.now) }
        ensures added { IfOk result (λ step. AreExactly (IsWantedOnly (T.terms table.now) self.now.wanted new.now old.now) step.answer.added.rows) }
        ensures obsolete { IfOk result (λ step. AreExactly (IsWantedOnly (T.terms table.now) self.now.wanted old.now new.now) step.answer.obsolete.rows) }
        ensures narrow { OnOk result (wanted_width (T.terms table.now) self.now.wanted new.now ≤ 65536) }
        ensures wide { IfErr result (IsOverwide (wanted_width (T.terms table.now) self.now.wanted new.now)) }
        ensures reads { steps.new ≤ steps.old + wanted_reads (T.terms table.now) self.now.wanted new.now }
    {
        // No two numbers have one term, whichever is asked for.
        table.term_of(TermId(0));
        let rows = evaluated(alloc, new, table, &self.wanted, steps)?;
        Ok(Step {
            parts: differences(alloc, &self.parts, &rows.parts)?,
            answer: Changed::between(alloc, &self.answer, &rows.answer)?,
        })
    }

    /// Makes room for a step in each list. After `NoMemory` the rows are the same. Where there is room it takes no memory.
    pub fn reserve(&mut self, step: &Step) -> Result<(), NoMemory>
        requires { IsStepOf self.old step.now }
        ensures rows { KeepsRows self.old self.new }
        ensures step { IsStepOf self.new step.now }
        ensures room { OnOk result (HasRoom self.new step.now) }
        ensures succeeds { HasRoom self.old step.now → IsOk result }
    {
        reserve_all(&mut self.parts, &step.parts)?;
        self.answer.reserve(step.answer.added.len())
    }

    /// Makes a step: the obsolete rows leave each list, and the new ones come. It takes no memory.
    pub fn commit(&mut self, step: Step)
        requires step { IsStepOf self.old step }
        requires room { HasRoom self.old step }
        ensures { IsAfter self.old step self.new }
    {
        apply_all(&mut self.parts, step.parts);
        apply(&mut self.answer, step.answer);
    }
}
