//! How a query text is answered.
ghost use Rattle.std.specs.Prelude.{◌≡◌, ◌+◌, ◌≤◌, ◌<◌, length, IfOk, IfErr, OnOk, OnErr, MatchOption};
ghost use Rattle.std.specs.List.{AllByRecursion};
ghost use Rattle.answer_bodies.specs.declared.answer.Answer.TheVariants as answers;
ghost use Rattle.ssap_shape.specs.declared.request.Ask.TheVariants as asks;
ghost use Rattle.ssap_shape.specs.declared.request.Wish.TheVariants as wishes;
ghost use Rattle.sparql_algebra.specs.Listed.{rows_of, width_of};
ghost use Rattle.sparql_algebra.specs.Valid.{IsValid, IsNamed};
ghost use Rattle.sparql_text.specs.declared.fault.ReadFault.TheVariants as faults;
ghost use Rattle.pattern_join.specs.Answers.{IsOverwide};
ghost use Rattle.query_eval.specs.Reads.{reads};
ghost use Rattle.session_core.specs.Answers.{name_in, column_names as names_of};
ghost use Rattle.session_core.specs.Numbers.{graph_of};
ghost use Rattle.session_core.specs.Prepared.{AreRows, IsTable, IsRefusal};
ghost use Rattle.session_core.specs.Ranks.{passed, queried};
ghost use Rattle.session_core.specs.Reads.{query_cost};

use crate::facts::Facts;
use crate::store::Store;
use answer_bodies::Answer;
use m3_terms::{Columns, NoMemory, Steps, Text};
use pattern_join::EvalFault;
use sparql_algebra::{IdRows, Query, Var};
use sparql_read::{ReadFault, read_query};
use ssap_items::Heads;
use ssap_shape::Status;
use std::alloc::Global;
use std::sync::ledger::Ledger;
use triple_index::View;

// The status that refuses a text for a fault, or `None` where memory ran out.
pub(crate) fn refusal(fault: ReadFault) -> Option<Status>
    ensures { MatchOption result (fault ≡ faults.NoMemory) (IsRefusal fault) }
{
    match fault {
        ReadFault::NotInProfile { place: _ } => Some(Status::Request),
        ReadFault::OverLimit { which: _, place: _ } => Some(Status::OutOfResources),
        ReadFault::NotDistinct => Some(Status::NotImplemented),
        ReadFault::NoMemory => None,
    }
}

fn name_of(names: &Columns, var: Var) -> Result<Text, NoMemory>
    requires { IsNamed (length names.now) var }
    ensures { IfOk result (λ name. name ≡ name_in names.now var) }
{
    match names.get(var.0 as usize) {
        Some(name) => name.copy(),
        None => unreachable!(),
    }
}

// The names of the columns of a query, in their order.
pub(crate) fn column_names(alloc: Global, query: &Query) -> Result<Columns, NoMemory>
    requires { AllByRecursion (IsNamed (length query.now.names)) query.now.columns }
    ensures { IfOk result (λ names. names ≡ names_of query.now) }
{
    let mut names = Columns::new(alloc);
    for var in query.columns.as_slice() {
        names.push(name_of(&query.names, *var)?)?;
    }
    Ok(names)
}

impl Facts {
    // The rows of numbers that answer a query.
    fn rows_for<L: Ledger>(
        &self,
        alloc: Global,
        query: &Query,
        steps: &mut Steps<L>,
    ) -> Result<IdRows, EvalFault>
        requires { IsValid query.now }
        ensures rows { IfOk result (λ rows. AreRows self.now query.now rows.rows) }
        ensures wide { IfErr result (IsOverwide (width_of query.now.pattern (graph_of self.now))) }
        ensures reads { steps.new ≤ steps.old + reads query.now.pattern (graph_of self.now) }
    {
        let view: View<'_, L> = View::plain(&self.index);
        query_eval::answer(alloc, &view, &self.terms, query, steps)
    }

    // The table of rows of numbers that answer a query.
    fn table(&self, alloc: Global, query: &Query, rows: &IdRows) -> Result<Answer, NoMemory>
        requires columns { AllByRecursion (IsNamed (length query.now.names)) query.now.columns }
        requires rows { AreRows self.now query.now rows.now.rows }
        ensures { IfOk result (IsTable (graph_of self.now) query.now) }
    {
        let columns = column_names(alloc, query)?;
        Answer::of_rows(alloc, &columns, &query.columns, rows, &self.terms)
    }

    /// The answer to a query, or `None` where its width is over the limit. It reads no more rows than the triples that
    /// are read for its pattern.
    pub fn ask<L: Ledger>(
        &self,
        alloc: Global,
        query: &Query,
        steps: &mut Steps<L>,
    ) -> Result<Option<Answer>, NoMemory>
        requires { IsValid query.now }
        ensures answer { IfOk result (λ found. MatchOption found (65536 < width_of query.now.pattern (graph_of self.now)) (IsTable (graph_of self.now) query.now)) }
        ensures reads { steps.new ≤ steps.old + reads query.now.pattern (graph_of self.now) }
    {
        match self.rows_for(alloc, query, steps) {
            Ok(rows) => Ok(Some(self.table(alloc, query, &rows)?)),
            Err(EvalFault::TooWide) => Ok(None),
            Err(EvalFault::NoMemory) => Err(NoMemory),
        }
    }
}

impl Store {
    /// Answers what a query text says, unless it says no query or a limit refuses it.
    pub fn ask<L: Ledger>(
        &mut self,
        alloc: Global,
        link: u32,
        heads: Heads,
        text: &[u8],
        steps: &mut Steps<L>,
    ) -> Result<(), NoMemory>
        ensures space { OnOk result (self.new ≡ passed self.old link heads (asks.Query (wishes.Sparql text.now))) }
        ensures err { OnErr result (self.new ≡ self.old) }
        ensures cost { steps.new ≤ steps.old + query_cost self.old.graph (wishes.Sparql text.now) }
    {
        match read_query(alloc, text) {
            Ok(query) => self.search(alloc, link, heads, &query, steps),
            Err(fault) => match refusal(fault) {
                Some(status) => self.answer(alloc, link, heads, status),
                None => Err(NoMemory),
            },
        }
    }

    // Answers a query, unless its width is over the limit or its answer is too long for a message.
    fn search<L: Ledger>(
        &mut self,
        alloc: Global,
        link: u32,
        heads: Heads,
        query: &Query,
        steps: &mut Steps<L>,
    ) -> Result<(), NoMemory>
        requires { IsValid query.now }
        ensures space { OnOk result (self.new ≡ queried self.old link heads (width_of query.now.pattern self.old.graph) (answers.Table (names_of query.now) (rows_of query.now self.old.graph))) }
        ensures err { OnErr result (self.new ≡ self.old) }
        ensures cost { steps.new ≤ steps.old + reads query.now.pattern self.old.graph }
    {
        match self.facts.ask(alloc, query, steps)? {
            Some(answer) => self.bring(alloc, link, heads, answer),
            None => self.answer(alloc, link, heads, Status::OutOfResources),
        }
    }
}
