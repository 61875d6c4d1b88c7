ghost use Rattle.std.specs.Prelude.{◌≡◌, ◌+◌, ◌<◌, ◌≤◌, ◌^◌, ◌↔◌, [], IsTrue, IsOk, length, IfOk, OnOk, OnErr, Contains};
ghost use Rattle.link_table.specs.Links.{state_of, pending_of};
ghost use Rattle.session_core.specs.Space.{empty_space};
ghost use Rattle.session_core.specs.Steps.{step, advanced, live_subscriptions, IsLean};
ghost use Rattle.session_core.specs.Reads.{cost as rows_of};
ghost use Rattle.session_core.specs.Runs.{StandsFor, StandsOn};

use crate::store::Store;
use crate::{Call, Reply};
use link_table::LinkState;
use m3_intern::{Interner, TermKeys};
use m3_terms::{NoMemory, Steps, Text, Triple};
use std::alloc::Global;
use std::marker::Model;
use std::sync::ledger::Ledger;
use std::thread::Threads;

/// The most nodes that may be joined.
pub const NODE_LIMIT: usize = 4096;

/// The most triples that the graph may have.
pub const TRIPLE_LIMIT: usize = 262_144;

/// The most that the terms of all accepted updates may cost: each counts once, as the bytes of its text and 32.
pub const TERMS_LIMIT: u64 = 268_435_456;

/// The most bytes of a confirm that brings an answer.
pub const CONFIRM_LIMIT: u64 = 4_194_304;

/// A space, which does one call at a time.
#[derive(Drop)]
pub struct Core {
    pub(crate) store: Store,
    pub(crate) count: u64,
}

impl Model for Core {
    ghost use Rattle.std.specs.Prelude.{◌≤◌};
    ghost use Rattle.session_core.specs.Space.{State};
    ghost use Rattle.sparql_algebra.specs.contracts.algebra.Algebra as algebra;
    ghost use Rattle.std.specs.Coded.{codes};

    ghost Value = { State };

    ghost coded = { Prim.hlevel (codes, algebra.the_row.coded) };

    ghost view = { λ c. record { space = c.store; count = c.count } };

    ghost invariant = { λ c. (c.store.updates ≤ c.count) × (c.store.numbered ≤ c.count) };
}

impl Core {
    /// A space with this name, in which nothing happened. It takes no memory.
    pub fn new(alloc: Global, space: Text) -> Core
        ensures space { result.space ≡ empty_space space }
        ensures count { result.count ≡ 0 }
        ensures stands { StandsFor space [] result }
    {
        Core::over(alloc, space, Interner::new(alloc, TERMS_LIMIT))
    }

    /// The same, with the terms hashed under keys that those who name them can't know. The keys change the time of calls
    /// and no answer.
    pub fn keyed(alloc: Global, space: Text, keys: TermKeys) -> Core
        ensures space { result.space ≡ empty_space space }
        ensures count { result.count ≡ 0 }
        ensures stands { StandsFor space [] result }
    {
        Core::over(alloc, space, Interner::keyed(alloc, TERMS_LIMIT, keys))
    }

    // A space whose terms go into an interner that has none.
    fn over(alloc: Global, space: Text, terms: Interner) -> Core
        requires none { terms.terms ≡ [] }
        requires limit { terms.limit ≡ 268435456 }
        ensures space { result.space ≡ empty_space space }
        ensures count { result.count ≡ 0 }
        ensures stands { StandsFor space [] result }
    {
        Core {
            store: Store::new(alloc, space, terms),
            count: 0,
        }
    }

    /// Does a call and answers it. Whatever takes memory comes before the first change, so an `Err` leaves all as it was.
    /// It counts the rows of the graph that it reads.
    pub fn step<R: Threads + Sync, L: Ledger>(
        &mut self,
        alloc: Global,
        rt: &R,
        call: Call,
        steps: &mut Steps<L>,
    ) -> Result<Reply, NoMemory>
        requires { self.old.count < 2 ^ 62 }
        ensures reply { IfOk result (λ reply. reply ≡ (step self.old.space call).reply) }
        ensures space { OnOk result (self.new ≡ advanced self.old call) }
        ensures err { OnErr result (self.new ≡ self.old) }
        ensures stands { StandsOn self.old call result self.new }
        ensures lean { IsLean call → IsOk result }
        ensures cost { steps.new ≤ steps.old + rows_of self.old.space call }
    {
        let reply = self.store.call(alloc, call, steps)?;
        self.count += 1;
        Ok(reply)
    }

    /// The name of the space.
    pub fn name(&self) -> &Text
        ensures { result.now ≡ self.now.space.name }
    {
        &self.store.name
    }

    /// How many calls were done.
    pub fn count(&self) -> u64
        ensures { result ≡ self.now.count }
    {
        self.count
    }

    /// How many updates were accepted.
    pub fn updates(&self) -> u64
        ensures { result ≡ self.now.space.updates }
    {
        self.store.updates
    }

    /// How many triples the graph has.
    pub fn triples(&self) -> u64
        ensures { result ≡ length self.now.space.graph }
    {
        self.store.facts.len() as u64
    }

    /// How many subscriptions live.
    pub fn subscriptions(&self) -> u64
        ensures { result ≡ live_subscriptions self.now.space }
    {
        self.store.living() as u64
    }

    /// Whether the graph has a triple.
    pub fn contains(&self, triple: &Triple) -> bool
        ensures { IsTrue result ↔ Contains self.now.space.graph triple.now }
    {
        self.store.facts.contains(triple)
    }

    /// The state of a link.
    pub fn link_state(&self, link: u32) -> LinkState
        ensures { result ≡ state_of self.now.space.links link }
    {
        self.store.links.state(link)
    }

    /// How many messages wait on a link.
    pub fn waiting(&self, link: u32) -> usize
        ensures { result ≡ length (pending_of self.now.space.links link) }
    {
        self.store.links.waiting(link)
    }
}
