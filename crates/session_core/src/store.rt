//! The space as it is kept, and what a call does to it.
ghost use Rattle.std.specs.Prelude.{◌≡◌, ◌+◌, ◌≤◌, ◌<◌, ◌^◌, [], true, IfOk, OnOk, OnErr, IsOk, length};
ghost use Rattle.link_table.specs.Links.{is_open, state_of, pending_of};
ghost use Rattle.ssap_shape.specs.declared.request.Arrived.TheVariants as arrived;
ghost use Rattle.session_core.specs.Space.{empty_space};
ghost use Rattle.session_core.specs.Requests.{confirm};
ghost use Rattle.session_core.specs.Queues.{queue};
ghost use Rattle.session_core.specs.Steps.{step, delivered, idle as idle_of, IsLean};
ghost use Rattle.session_core.specs.Ranks.{is_rung_since, ring_of};
ghost use Rattle.session_core.specs.Reads.{arrived_cost, cost as rows_of};
ghost use Rattle.session_core.specs.declared.call.Call.TheVariants as calls;
ghost use Rattle.session_core.specs.declared.call.Reply.TheVariants as replies;

use crate::confirm::{bare, confirm_message};
use crate::entry::Entry;
use crate::facts::Facts;
use crate::telling::sweep;
use crate::{Call, Reply, Ring};
use link_table::{LinkState, Links, Message};
use m3_intern::Interner;
use m3_terms::{NoMemory, Steps, Text};
use smallvec::SmallVec;
use ssap_items::Heads;
use ssap_shape::{Arrived, Status};
use std::alloc::Global;
use std::collections::BTreeSet;
use std::marker::Model;
use std::sync::ledger::Ledger;

/// A space. Whatever takes memory comes before the first change, so what ends in an `Err` leaves all as it was.
#[derive(Drop)]
pub(crate) struct Store {
    pub name: Text,
    pub joined: BTreeSet<Text>,
    pub links: Links,
    pub facts: Facts,
    pub updates: u64,
    /// The subscriptions by rising number, of which some may have ended.
    pub entries: Vec<Entry>,
    /// The last number that was given to a subscription.
    pub numbered: u64,
}

impl Model for Store {
    ghost use Rattle.session_core.specs.Space.{Space};
    ghost use Rattle.session_core.specs.Entries.{living, AreEntries};
    ghost use Rattle.session_core.specs.Kept.{IsKept};
    ghost use Rattle.session_core.specs.Numbers.{graph_of};
    ghost use Rattle.sparql_algebra.specs.contracts.algebra.Algebra as algebra;
    ghost use Rattle.std.specs.Coded.{codes};

    ghost Value = { Space };

    ghost coded = { Prim.hlevel (codes, algebra.the_row.coded) };

    ghost view = { λ s. record { name = s.name; joined = s.joined.keys; links = s.links; graph = graph_of s.facts; named = s.facts.terms; updates = s.updates; subscriptions = living s.links s.entries.items; numbered = s.numbered } };

    ghost invariant = { λ s. IsKept (record { name = s.name; joined = s.joined.keys; links = s.links; graph = graph_of s.facts; named = s.facts.terms; updates = s.updates; subscriptions = living s.links s.entries.items; numbered = s.numbered }) × AreEntries s.facts s.links s.updates s.numbered s.entries.items };
}

fn idle(state: LinkState) -> Reply
    ensures { result ≡ idle_of state }
{
    match state {
        LinkState::Open => Reply::Empty,
        LinkState::Never | LinkState::Ended | LinkState::Overrun | LinkState::Gone => Reply::Over,
    }
}

impl Store {
    /// A space in which nothing happened, whose terms go into an interner that has none. It takes no memory.
    pub fn new(alloc: Global, name: Text, terms: Interner) -> Store
        requires none { terms.terms ≡ [] }
        requires limit { terms.limit ≡ 268435456 }
        ensures { result ≡ empty_space name }
    {
        Store {
            name,
            joined: BTreeSet::new(alloc),
            links: Links::new(alloc),
            facts: Facts::new(alloc, terms),
            updates: 0,
            entries: Vec::new(alloc),
            numbered: 0,
        }
    }

    /// Does a call and answers it.
    pub fn call<L: Ledger>(
        &mut self,
        alloc: Global,
        call: Call,
        steps: &mut Steps<L>,
    ) -> Result<Reply, NoMemory>
        requires updates { self.old.updates < 2 ^ 62 }
        requires numbers { self.old.numbered < 2 ^ 62 }
        ensures reply { IfOk result (λ reply. reply ≡ (step self.old call).reply) }
        ensures space { OnOk result (self.new ≡ (step self.old call).space) }
        ensures err { OnErr result (self.new ≡ self.old) }
        ensures cost { steps.new ≤ steps.old + rows_of self.old call }
        ensures lean { IsLean call → IsOk result }
    {
        match call {
            Call::NewLink => self.open(),
            Call::Deliver(link, arrived) => self.deliver(alloc, link, arrived, steps),
            Call::End(link) => Ok(self.end(alloc, link)),
            Call::Lost(link) => Ok(self.lose(alloc, link)),
            Call::Take(link) => Ok(self.take(link)),
        }
    }

    fn open(&mut self) -> Result<Reply, NoMemory>
        ensures reply { IfOk result (λ reply. reply ≡ (step self.old calls.NewLink).reply) }
        ensures space { OnOk result (self.new ≡ (step self.old calls.NewLink).space) }
        ensures err { OnErr result (self.new ≡ self.old) }
    {
        match self.links.open()? {
            Some(number) => Ok(Reply::Opened(number)),
            None => Ok(Reply::TooManyLinks {
                count: self.links.counted(),
            }),
        }
    }

    // What is answered where a link was open, and so many messages waited on it before.
    fn told(&self, alloc: Global, link: u32, waited: usize) -> Reply
        ensures { result ≡ replies.Done (ring_of (is_rung_since self.now.links link waited) link) }
    {
        let open = matches!(self.links.state(link), LinkState::Open);
        let ring = if !open || waited < self.links.waiting(link) {
            Ring::one(alloc, link)
        } else {
            Ring::none(alloc)
        };
        Reply::Done { ring }
    }

    fn deliver<L: Ledger>(
        &mut self,
        alloc: Global,
        link: u32,
        arrived: Arrived,
        steps: &mut Steps<L>,
    ) -> Result<Reply, NoMemory>
        requires updates { self.old.updates < 2 ^ 62 }
        requires numbers { self.old.numbered < 2 ^ 62 }
        ensures reply { IfOk result (λ reply. reply ≡ (step self.old (calls.Deliver link arrived)).reply) }
        ensures space { OnOk result (self.new ≡ (step self.old (calls.Deliver link arrived)).space) }
        ensures err { OnErr result (self.new ≡ self.old) }
        ensures cost { steps.new ≤ steps.old + arrived_cost self.old arrived }
    {
        match self.links.state(link) {
            LinkState::Never => Ok(Reply::NoLink),
            LinkState::Open => {
                let before = self.links.open_links(alloc)?;
                let room = SmallVec::with_capacity(alloc, before.len())?;
                self.arrive(alloc, link, arrived, steps)?;
                sweep(&self.links, &mut self.entries);
                Ok(Reply::Done {
                    ring: Ring::since(&self.links, before.as_slice(), room),
                })
            }
            LinkState::Ended | LinkState::Overrun | LinkState::Gone => Ok(Reply::Closed),
        }
    }

    fn arrive<L: Ledger>(
        &mut self,
        alloc: Global,
        link: u32,
        arrived: Arrived,
        steps: &mut Steps<L>,
    ) -> Result<(), NoMemory>
        requires updates { self.old.updates < 2 ^ 62 }
        requires numbers { self.old.numbered < 2 ^ 62 }
        requires open { is_open (state_of self.old.links link) ≡ true }
        ensures space { OnOk result (self.new ≡ delivered self.old link arrived) }
        ensures err { OnErr result (self.new ≡ self.old) }
        ensures cost { steps.new ≤ steps.old + arrived_cost self.old arrived }
    {
        match arrived {
            Arrived::NotRequest => {
                self.links.end(link);
                Ok(())
            }
            Arrived::Wrong { heads, status } => {
                let status = self.wrong_status(&heads, status);
                self.answer(alloc, link, heads, status)
            }
            Arrived::Request(request) => self.request(alloc, link, request, steps),
        }
    }

    /// Sends the confirm with this status.
    pub fn answer(
        &mut self,
        alloc: Global,
        link: u32,
        heads: Heads,
        status: Status,
    ) -> Result<(), NoMemory>
        ensures space { OnOk result (self.new ≡ queue self.old link (Some (confirm heads status))) }
        ensures err { OnErr result (self.new ≡ self.old) }
    {
        let message = confirm_message(alloc, &bare(heads, status))?;
        self.send(link, message);
        Ok(())
    }

    /// Sends a message, which takes no memory.
    pub fn send(&mut self, link: u32, message: Message)
        ensures { self.new ≡ queue self.old link (Some message) }
    {
        self.links.send(link, message);
    }

    fn end(&mut self, alloc: Global, link: u32) -> Reply
        ensures reply { result ≡ (step self.old (calls.End link)).reply }
        ensures space { self.new ≡ (step self.old (calls.End link)).space }
    {
        match self.links.state(link) {
            LinkState::Never => Reply::NoLink,
            LinkState::Open => {
                let waited = self.links.waiting(link);
                self.links.end(link);
                self.told(alloc, link, waited)
            }
            LinkState::Ended | LinkState::Overrun | LinkState::Gone => Reply::Closed,
        }
    }

    fn lose(&mut self, alloc: Global, link: u32) -> Reply
        ensures reply { result ≡ (step self.old (calls.Lost link)).reply }
        ensures space { self.new ≡ (step self.old (calls.Lost link)).space }
    {
        let state = self.links.state(link);
        let waited = self.links.waiting(link);
        self.links.lose(link);
        match state {
            LinkState::Never => Reply::NoLink,
            LinkState::Open => self.told(alloc, link, waited),
            LinkState::Ended | LinkState::Overrun | LinkState::Gone => Reply::Done {
                ring: Ring::none(alloc),
            },
        }
    }

    fn take(&mut self, link: u32) -> Reply
        ensures reply { result ≡ (step self.old (calls.Take link)).reply }
        ensures space { self.new ≡ (step self.old (calls.Take link)).space }
    {
        let state = self.links.state(link);
        if self.links.waiting(link) == 0 {
            return match state {
                LinkState::Never => Reply::NoLink,
                state => idle(state),
            };
        }
        match self.links.take(link) {
            Some(message) => Reply::Message(message),
            None => unreachable!(),
        }
    }
}
