//! How a query is answered.
ghost use Rattle.std.specs.Prelude.{◌≡◌, ◌+◌, ◌≤◌, OnOk, OnErr};
ghost use Rattle.answer_bodies.specs.Writing.{IsFull};
ghost use Rattle.ssap_shape.specs.declared.request.Ask.TheVariants as asks;
ghost use Rattle.ssap_shape.specs.declared.request.Wish.TheVariants as wishes;
ghost use Rattle.triple_index.specs.Graphs.{count_fitting};
ghost use Rattle.session_core.specs.Graph.{fits};
ghost use Rattle.session_core.specs.Reads.{query_cost};
ghost use Rattle.session_core.specs.Ranks.{passed, answered};

use crate::confirm::{answering, short_message};
use crate::store::Store;
use answer_bodies::Answer;
use m3_terms::{NoMemory, Patterns, Steps};
use ssap_items::Heads;
use ssap_shape::{Status, Wish};
use std::alloc::Global;
use std::sync::ledger::Ledger;

impl Store {
    /// Answers a query, unless its text says none or a limit refuses it.
    pub fn query<L: Ledger>(
        &mut self,
        alloc: Global,
        link: u32,
        heads: Heads,
        wish: &Wish,
        steps: &mut Steps<L>,
    ) -> Result<(), NoMemory>
        ensures space { OnOk result (self.new ≡ passed self.old link heads (asks.Query wish.now)) }
        ensures err { OnErr result (self.new ≡ self.old) }
        ensures cost { steps.new ≤ steps.old + query_cost self.old.graph wish.now }
    {
        match wish {
            Wish::Templates(templates) => self.find(alloc, link, heads, templates, steps),
            Wish::Sparql(text) => self.ask(alloc, link, heads, text.as_bytes(), steps),
        }
    }

    // Answers the triples that fit templates, unless they are too many or too long for a message.
    #[tactic(auto, using(crate::proofs::Passed::query_unanswerable))]
    fn find<L: Ledger>(
        &mut self,
        alloc: Global,
        link: u32,
        heads: Heads,
        templates: &Patterns,
        steps: &mut Steps<L>,
    ) -> Result<(), NoMemory>
        ensures space { OnOk result (self.new ≡ passed self.old link heads (asks.Query (wishes.Templates templates.now))) }
        ensures err { OnErr result (self.new ≡ self.old) }
        ensures cost { steps.new ≤ steps.old + count_fitting fits self.old.graph templates.now }
    {
        match self.facts.find(alloc, templates, steps)? {
            Some(answer) => self.bring(alloc, link, heads, answer),
            None => self.answer(alloc, link, heads, Status::OutOfResources),
        }
    }

    /// Sends the confirm that brings an answer, unless it is too long for a message.
    pub fn bring(
        &mut self,
        alloc: Global,
        link: u32,
        heads: Heads,
        answer: Answer,
    ) -> Result<(), NoMemory>
        requires { IsFull answer }
        ensures space { OnOk result (self.new ≡ answered self.old link heads answer) }
        ensures err { OnErr result (self.new ≡ self.old) }
    {
        let confirm = answering(heads, answer);
        match short_message(alloc, &confirm)? {
            Some(message) => {
                self.send(link, message);
                Ok(())
            }
            None => {
                let heads = confirm.heads;
                self.answer(alloc, link, heads, Status::OutOfResources)
            }
        }
    }
}
