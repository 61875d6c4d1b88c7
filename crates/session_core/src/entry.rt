//! Subscriptions as they are kept, and what is due to one.
ghost use Rattle.std.specs.Prelude.{◌≡◌, ◌+◌, ◌≤◌, ◌<◌, ◌^◌, IfOk, OnOk};
ghost use Rattle.answer_bodies.specs.Writing.{IsFull};
ghost use Rattle.link_table.specs.Links.{changed, sent};
ghost use Rattle.std.specs.Option.{option_map_or};
ghost use Rattle.session_core.specs.Entries.{subscription_of, IsSameEntry, IsDue, IsNext, IsStepNext, HasRoomForNext, IsRoomier, IsCommitted, IsPassed, IsToldOnce, message_in, is_news};
ghost use Rattle.session_core.specs.Numbers.{graph_of, made, CanBeMade};
ghost use Rattle.session_core.specs.Reads.{wanted_cost};
ghost use Rattle.session_core.specs.Subscriptions.{heads_for, indication_bytes, ended_by};
ghost use Rattle.session_core.specs.Watches.{wanted_in, Stands};

use crate::confirm::{indication_message, short_indication};
use crate::facts::{Facts, Update};
use crate::watch::{Prepared, Watch};
use answer_bodies::Difference;
use delta_eval::Step;
use link_table::{Links, Message};
use m3_terms::{NoMemory, Steps, Text};
use ssap_items::{Heads, MessageType, Transaction};
use ssap_shape::{Indication, Status};
use std::alloc::Global;
use std::mem;
use std::sync::ledger::Ledger;

/// What a subscription is to be told.
#[derive(Drop)]
pub(crate) enum Due {
    Nothing,
    /// How its answer changed.
    Change(Message),
    /// That it ended.
    End(Message),
}

/// A subscription, and what is prepared for it.
#[derive(Drop)]
pub(crate) struct Entry {
    pub number: u64,
    /// The number in decimal.
    pub digits: Text,
    pub link: u32,
    pub node: Text,
    pub transaction: Text,
    /// The number of the last change that was told.
    pub sequence: u64,
    /// Whether it has ended; the entry is then taken out when the call is done.
    pub ended: bool,
    pub watch: Watch,
    /// The step that its standing query takes with the update, where it goes on.
    pub next: Option<Step>,
    pub due: Due,
}

impl Entry {
    fn heads(&self, name: &Text, transaction: Transaction) -> Result<Heads, NoMemory>
        ensures { IfOk result (λ heads. heads ≡ heads_for name.now (subscription_of self.now) transaction) }
    {
        Ok(Heads {
            message: MessageType::Indication,
            transaction,
            transaction_id: self.transaction.copy()?,
            node_id: self.node.copy()?,
            space_id: name.copy()?,
        })
    }

    /// The message that it ended, with this status.
    pub fn farewell(&self, alloc: Global, name: &Text, status: Status) -> Result<Message, NoMemory>
        ensures { IfOk result (λ message. message ≡ indication_bytes (ended_by name.now (subscription_of self.now) status)) }
    {
        let heads = self.heads(name, Transaction::Unsubscribe)?;
        indication_message(
            alloc,
            &Indication::Ended {
                heads,
                subscription: self.number,
                status,
            },
        )
    }

    // The message that its answer changed so, or that it ended where that would be too long.
    fn news(&self, alloc: Global, name: &Text, difference: Difference) -> Result<Due, NoMemory>
        requires few { self.now.sequence < 2 ^ 63 }
        requires added { IsFull difference.added }
        requires obsolete { IsFull difference.obsolete }
        ensures { IfOk result (is_news name.now (subscription_of self.now) difference) }
    {
        let heads = self.heads(name, Transaction::Subscribe)?;
        let indication = Indication::Changes {
            heads,
            subscription: self.number,
            sequence: self.sequence + 1,
            difference,
        };
        match short_indication(alloc, &indication)? {
            Some(message) => Ok(Due::Change(message)),
            None => Ok(Due::End(self.farewell(alloc, name, Status::OutOfResources)?)),
        }
    }

    /// Prepares what it comes to after an update.
    pub fn prepare<L: Ledger>(
        &mut self,
        alloc: Global,
        name: &Text,
        facts: &Facts,
        update: &Update,
        steps: &mut Steps<L>,
    ) -> Result<(), NoMemory>
        requires few { self.old.sequence < 2 ^ 63 }
        requires stands { Stands facts.now self.old.watch }
        requires update { CanBeMade facts.now update.now.draft update.now.change }
        ensures same { IsSameEntry self.old self.new }
        ensures due { OnOk result (IsDue (graph_of facts.now) (graph_of (made facts.now update.now.draft update.now.change)) name.now (subscription_of self.old) self.new.due) }
        ensures next { OnOk result (IsNext (made facts.now update.now.draft update.now.change) self.new.watch self.new.next self.new.due) }
        ensures reads { steps.new ≤ steps.old + wanted_cost (graph_of (made facts.now update.now.draft update.now.change)) (wanted_in self.old.watch) }
    {
        match self.watch.prepare(alloc, facts, update, steps)? {
            Prepared::Wide => {
                self.due = Due::End(self.farewell(alloc, name, Status::OutOfResources)?);
                self.next = None;
            }
            Prepared::Same(step) => {
                self.due = Due::Nothing;
                self.next = Some(step);
            }
            Prepared::Differs(step, difference) => {
                self.due = self.news(alloc, name, difference)?;
                self.next = Some(step);
            }
        }
        Ok(())
    }

    /// Nothing is prepared.
    pub fn pass(&mut self)
        ensures { IsPassed self.old self.new }
    {
        self.due = Due::Nothing;
        self.next = None;
    }

    /// Makes room for the step that is prepared.
    pub fn reserve(&mut self) -> Result<(), NoMemory>
        requires { IsStepNext self.old.watch self.old.next }
        ensures same { IsRoomier self.old self.new }
        ensures room { OnOk result (HasRoomForNext self.new.watch self.new.next) }
    {
        match &self.next {
            Some(step) => self.watch.reserve(step),
            None => Ok(()),
        }
    }

    /// Takes the step that is prepared, for which there is room. It takes no memory.
    pub fn commit(&mut self)
        requires { HasRoomForNext self.old.watch self.old.next }
        ensures { IsCommitted self.old self.new }
    {
        if let Some(step) = self.next.take() {
            self.watch.commit(step);
        }
    }

    /// Tells what is due. It takes no memory.
    pub fn tell(&mut self, links: &mut Links)
        requires { self.old.sequence < 2 ^ 63 }
        ensures { IsToldOnce self.old links.old self.new links.new }
    {
        match mem::replace(&mut self.due, Due::Nothing) {
            Due::Nothing => {}
            Due::Change(message) => {
                self.sequence += 1;
                links.send(self.link, message);
            }
            Due::End(message) => {
                self.ended = true;
                links.send(self.link, message);
            }
        }
    }

    /// Sends the farewell that is prepared, if there is one. It takes no memory.
    pub fn tell_end(&mut self, links: &mut Links)
        ensures entry { IsPassed self.old self.new }
        ensures links { links.new ≡ option_map_or (λ message. changed (sent message) links.old self.old.link) (message_in self.old.due) links.old }
    {
        match mem::replace(&mut self.due, Due::Nothing) {
            Due::End(message) => links.send(self.link, message),
            Due::Nothing | Due::Change(_) => {}
        }
        self.next = None;
    }
}
