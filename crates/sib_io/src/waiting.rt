//! Connections in memory.
ghost use Rattle.std.specs.Prelude.{◌≡◌, ◌++◌, ◌∷◌, [], Some, length, IsTrue, ◌↔◌, IfSome, IfNone, OnOk, OnErr, option_copied, slice_get};
ghost use Rattle.sib_io.specs.Causes.{HasCause};
ghost use Rattle.sib_io.specs.Connections.{GivesNext};
ghost use Rattle.sib_io.specs.Memory.{fails_next};
ghost use Rattle.sib_io.specs.Waiting.{NextLined};

use crate::calls::Plan;
use crate::{Accept, Calls, Failed, MemSink, MemSource};
use m3_terms::NoMemory;
use std::alloc::Global;
use std::marker::Model;

/// Connections in memory, as a list of pairs: what each sends, and where it is sent what it gets.
#[derive(Drop)]
pub struct Connections {
    items: Vec<(MemSource, MemSink)>,
}

impl Model for Connections {
    ghost use Rattle.std.specs.Prelude.{List};
    ghost use Rattle.sib_io.specs.Memory.{Held, Filled};

    ghost Value = { List (Held × Filled) };

    ghost view = { λ c. c.items.items };
}

impl Connections {
    /// No connections. It takes no memory.
    pub fn new(alloc: Global) -> Connections
        ensures { result ≡ [] }
    {
        Connections {
            items: Vec::new(alloc),
        }
    }

    /// How many connections there are.
    pub fn len(&self) -> usize
        ensures { result ≡ length self.now }
    {
        self.items.len()
    }

    /// Whether there is no connection.
    pub fn is_empty(&self) -> bool
        ensures { IsTrue result ↔ (self.now ≡ []) }
    {
        self.items.is_empty()
    }

    /// The connection at an index, or `None` from the end on.
    pub fn get(&self, at: usize) -> Option<&(MemSource, MemSink)>
        ensures { option_copied result ≡ slice_get self.now at }
    {
        self.items.get(at)
    }

    /// Appends a connection. After `NoMemory` the list is unchanged, and the connection was dropped.
    pub fn push(&mut self, item: (MemSource, MemSink)) -> Result<(), NoMemory>
        ensures ok { OnOk result (self.new ≡ self.old ++ item ∷ []) }
        ensures err { OnErr result (self.new ≡ self.old) }
    {
        self.items.push(item)?;
        Ok(())
    }

    /// Takes the first connection out.
    fn take_first(&mut self) -> Option<(MemSource, MemSink)>
        ensures some { IfSome result (λ pair. self.old ≡ pair ∷ self.new) }
        ensures none { IfNone result ((self.old ≡ []) × (self.new ≡ [])) }
    {
        if self.items.is_empty() {
            return None;
        }
        Some(self.items.remove(0))
    }
}

/// Connections that wait in memory, given in order. The calls fail where a list says so.
#[derive(Drop)]
pub struct MemAccept {
    waiting: Connections,
    plan: Plan,
}

impl Model for MemAccept {
    ghost use Rattle.sib_io.specs.Waiting.{Lined};

    ghost Value = { Lined };

    ghost view = { λ a. record { waiting = a.waiting; plan = a.plan } };
}

impl MemAccept {
    /// These connections wait. The calls in `failing`, counted from 1, fail.
    pub fn new(waiting: Connections, failing: Calls) -> MemAccept
        ensures { result ≡ record { waiting = waiting; plan = record { failing = failing; calls = 0; faults = 0 } } }
    {
        MemAccept {
            waiting,
            plan: Plan::new(failing),
        }
    }
}

impl Accept for MemAccept {
    type Input = MemSource;

    type Output = MemSink;

    ghost waiting = { λ a. Some a.waiting };

    ghost faults = { λ a. a.plan.faults };

    fn next(&mut self) -> Result<Option<(MemSource, MemSink)>, Failed>
        ensures connection { GivesNext (Some self.old.waiting) (Some self.new.waiting) result }
        ensures cause { HasCause self.old.plan.faults self.new.plan.faults result }
        ensures exact { NextLined (fails_next self.old.plan) self.old result self.new }
    {
        if self.plan.is_next_failing() {
            return Err(self.plan.fail());
        }
        Ok(self.waiting.take_first())
    }
}
