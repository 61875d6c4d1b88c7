//! The facts of a space: the triples of its graph by numbers, and the terms that have them.
ghost use Rattle.std.specs.Prelude.{◌≡◌, ◌+◌, ◌≤◌, ◌<◌, ◌↔◌, [], false, IsTrue, IfOk, IfErr, OnOk, OnErr, MatchOption, Contains, length};
ghost use Rattle.std.specs.List.{list_any};
ghost use Rattle.session_core.specs.Watches.{IsNamedBy};
ghost use Rattle.m3_intern.specs.Interned.{bytes_of_terms};
ghost use Rattle.triple_index.specs.Changes.{IsNet, changed};
ghost use Rattle.triple_index.specs.Graphs.{count_fitting};
ghost use Rattle.session_core.specs.Graph.{fits, terms_of as terms_in, with_named};
ghost use Rattle.session_core.specs.Numbers.{graph_of, number_in, ids_of_triple, made, CanBeMade};
ghost use Rattle.session_core.specs.Requests.{is_no_triple, is_overfull};
ghost use Rattle.session_core.specs.Prepared.{IsUpdateOf, IsChange, IsAnswer, IsMeant, IsUnanswerable, AreMatching};
ghost use Rattle.pattern_join.specs.Answers.{IsOverwide};
ghost use Rattle.session_core.specs.Answers.{fitting};
ghost use Rattle.triple_index.specs.Changes.{AreOrdered};
ghost use Rattle.triple_index.specs.declared.triple.IdTriple.{IdTriple as SeenTriple};

use crate::numbers::{patterns_by, terms_of, triples_by};
use crate::space::{CONFIRM_LIMIT, TRIPLE_LIMIT};
use crate::texts::texts_exceed;
use answer_bodies::Answer;
use m3_intern::{Draft, InternFault, Interner};
use m3_terms::{NoMemory, Patterns, Steps, Term, TermId, TermList, TermTable, Triple};
use pattern_join::{EvalFault, matches, rows_of};
use std::alloc::Global;
use std::marker::Model;
use std::sync::ledger::Ledger;
use triple_index::{Change, IdTriple, IdTriples, Index, View};

/// The triples of a graph by the numbers of their terms. A term that was named once keeps its number.
#[derive(Drop)]
pub(crate) struct Facts {
    pub terms: Interner,
    pub index: Index,
}

impl Model for Facts {
    ghost use Rattle.std.specs.Prelude.{◌≡◌};
    ghost use Rattle.session_core.specs.Numbers.{Numbers, AreNumbers};

    ghost Value = { Numbers };

    ghost view = { λ f. record { terms = f.terms.terms; triples = f.index.triples } };

    ghost invariant = { λ f. (f.terms.limit ≡ 268435456) × AreNumbers (record { terms = f.terms.terms; triples = f.index.triples }) };
}

/// An update that is ready to be made: its new terms, and its change of the graph.
#[derive(Drop)]
pub(crate) struct Update {
    pub draft: Draft,
    pub change: Change,
}

// Whether a graph would have too many triples after a change that is net for it.
fn is_full(index: &Index, change: &Change) -> bool
    requires { IsNet index.now.triples change.now }
    ensures { IsTrue result ↔ (262144 < length (changed index.now.triples change.now)) }
{
    let kept = index.len().saturating_sub(change.removed().len());
    kept.saturating_add(change.inserted().len()) > TRIPLE_LIMIT
}

impl Facts {
    /// No facts. It takes no memory. The terms will go into this interner, which has none.
    pub fn new(alloc: Global, terms: Interner) -> Facts
        requires none { terms.terms ≡ [] }
        requires limit { terms.limit ≡ 268435456 }
        ensures terms { result.terms ≡ [] }
        ensures graph { graph_of result ≡ [] }
    {
        Facts {
            terms,
            index: Index::new(alloc),
        }
    }

    /// How many triples the graph has.
    pub fn len(&self) -> usize
        ensures { result ≡ length (graph_of self.now) }
    {
        self.index.len()
    }

    fn number(&self, term: &Term) -> Option<TermId>
        ensures { result ≡ number_in self.now.terms term.now }
    {
        self.terms.id_of(term)
    }

    // The numbers of a triple's terms, where each has one.
    fn ids(&self, triple: &Triple) -> Option<IdTriple>
        ensures { result ≡ ids_of_triple self.now.terms triple.now }
    {
        Some(IdTriple {
            subject: self.number(&triple.subject)?,
            predicate: self.number(&triple.predicate)?,
            object: self.number(&triple.object)?,
        })
    }

    /// Whether the graph has a triple.
    pub fn contains(&self, triple: &Triple) -> bool
        ensures { IsTrue result ↔ Contains (graph_of self.now) triple.now }
    {
        match self.ids(triple) {
            Some(ids) => self.index.contains(&ids),
            None => false,
        }
    }

    /// The new ones of some terms, or `None` where the named terms would pass their limit.
    pub fn draft(&self, wanted: TermList) -> Result<Option<Draft>, NoMemory>
        ensures { IfOk result (λ found. MatchOption found (268435456 < bytes_of_terms (with_named self.now.terms wanted)) (IsNamedBy self.now wanted)) }
    {
        match self.terms.draft(wanted) {
            Ok(draft) => Ok(Some(draft)),
            Err(InternFault::Full { .. }) => Ok(None),
            Err(InternFault::NoMemory) => Err(NoMemory),
        }
    }

    // The change that removes what fits patterns and inserts others, once these have numbers.
    fn net<L: Ledger>(
        &self,
        alloc: Global,
        draft: &Draft,
        remove: &Patterns,
        insert: &Patterns,
        steps: &mut Steps<L>,
    ) -> Result<Change, NoMemory>
        requires { IsNamedBy self.now (terms_in insert.now) draft.now }
        ensures change { IfOk result (IsChange self.now draft.now remove.now insert.now) }
        ensures reads { steps.new ≤ steps.old + count_fitting fits (graph_of self.now) remove.now }
    {
        let table = draft.with(&self.terms);
        let remove = patterns_by(alloc, &table, remove.as_slice())?;
        let insert = triples_by(alloc, &table, insert.as_slice())?;
        Change::net(alloc, &self.index, &remove, &insert, steps)
    }

    /// The update that removes what fits patterns and then inserts others, or `None` where a limit refuses it. It changes
    /// nothing, and reads no more rows than the triples that fit, summed over the patterns.
    pub fn prepare<L: Ledger>(
        &self,
        alloc: Global,
        remove: &Patterns,
        insert: &Patterns,
        steps: &mut Steps<L>,
    ) -> Result<Option<Update>, NoMemory>
        requires { list_any is_no_triple insert.now ≡ false }
        ensures update { IfOk result (λ found. MatchOption found (IsTrue (is_overfull (graph_of self.now) self.now.terms remove.now insert.now)) (λ update. IsUpdateOf self.now remove.now insert.now update.draft update.change)) }
        ensures reads { steps.new ≤ steps.old + count_fitting fits (graph_of self.now) remove.now }
    {
        let Some(draft) = self.draft(terms_of(alloc, insert.as_slice())?)? else {
            return Ok(None);
        };
        let change = self.net(alloc, &draft, remove, insert, steps)?;
        if is_full(&self.index, &change) {
            return Ok(None);
        }
        Ok(Some(Update { draft, change }))
    }

    // The triples of the graph that fit a template, by their numbers and in their order.
    fn matching<L: Ledger>(
        &self,
        alloc: Global,
        templates: &Patterns,
        steps: &mut Steps<L>,
    ) -> Result<IdTriples, EvalFault>
        ensures matching { IfOk result (AreMatching self.now templates.now) }
        ensures wide { IfErr result (IsOverwide (length (fitting (graph_of self.now) templates.now))) }
        ensures reads { steps.new ≤ steps.old + count_fitting fits (graph_of self.now) templates.now }
    {
        let ids = patterns_by(alloc, &self.terms, templates.as_slice())?;
        let view: View<'_, L> = View::plain(&self.index);
        matches(alloc, &view, &ids, steps)
    }

    /// The triples that fit a template, in their order, or `None` where they are more than an answer may have, or their
    /// texts alone are longer than a confirm may be: then no text was copied. It reads no more rows than the triples that
    /// fit, summed over the templates.
    pub fn find<L: Ledger>(
        &self,
        alloc: Global,
        templates: &Patterns,
        steps: &mut Steps<L>,
    ) -> Result<Option<Answer>, NoMemory>
        ensures answer { IfOk result (λ found. MatchOption found (IsUnanswerable (graph_of self.now) templates.now) (IsAnswer (graph_of self.now) templates.now)) }
        ensures reads { steps.new ≤ steps.old + count_fitting fits (graph_of self.now) templates.now }
    {
        match self.matching(alloc, templates, steps) {
            Ok(triples) => {
                if texts_exceed(CONFIRM_LIMIT, &self.terms, triples.as_slice()) {
                    return Ok(None);
                }
                Ok(Some(self.answer(alloc, &triples)?))
            }
            Err(EvalFault::TooWide) => Ok(None),
            Err(EvalFault::NoMemory) => Err(NoMemory),
        }
    }

    // The answer that triples of the graph are, by their numbers.
    fn answer(&self, alloc: Global, triples: &IdTriples) -> Result<Answer, NoMemory>
        requires ordered { AreOrdered triples.now }
        requires there { (t : SeenTriple) → Contains triples.now t → Contains self.now.triples t }
        ensures { IfOk result (IsMeant self.now.terms triples.now) }
    {
        let rows = rows_of(alloc, triples)?;
        Answer::of_triples(alloc, &rows, &self.terms)
    }

    /// Makes an update, whole or not at all.
    pub fn make(&mut self, update: Update) -> Result<(), NoMemory>
        requires { CanBeMade self.old update.draft update.change }
        ensures ok { OnOk result (self.new ≡ made self.old update.draft update.change) }
        ensures err { OnErr result (self.new ≡ self.old) }
    {
        self.index.reserve(update.change.inserted().len())?;
        self.terms.reserve_for(&update.draft)?;
        self.index.apply(&update.change);
        self.terms.commit(update.draft);
        Ok(())
    }
}
