ghost use Rattle.std.specs.Prelude.{◌≡◌, ◌^◌, ◌<◌, ◌++◌, ◌∷◌, [], length, IsTrue, ◌↔◌, OnOk, OnErr, option_copied, slice_get};
ghost use Rattle.m3_terms.specs.Counts.{one_more};
ghost use Rattle.sib_io.specs.Memory.{Plan as Planned, fails_next};

use crate::Failed;
use m3_terms::NoMemory;
use std::alloc::Global;
use std::marker::Model;

/// The calls that are to fail, counted from 1, as a list of numbers.
#[derive(Debug, Drop)]
pub struct Calls {
    items: Vec<usize>,
}

impl Model for Calls {
    ghost use Rattle.std.specs.Prelude.{List, ℕ};

    ghost Value = { List ℕ };

    ghost view = { λ c. c.items.items };
}

impl Calls {
    /// No calls. It takes no memory.
    pub fn new(alloc: Global) -> Calls
        ensures { result ≡ [] }
    {
        Calls {
            items: Vec::new(alloc),
        }
    }

    /// How many calls are to fail.
    pub fn len(&self) -> usize
        ensures { result ≡ length self.now }
    {
        self.items.len()
    }

    /// Whether no call is to fail.
    pub fn is_empty(&self) -> bool
        ensures { IsTrue result ↔ (self.now ≡ []) }
    {
        self.items.is_empty()
    }

    /// The number at an index, or `None` from the end on.
    pub fn get(&self, at: usize) -> Option<&usize>
        ensures { option_copied result ≡ slice_get self.now at }
    {
        self.items.get(at)
    }

    /// Appends a number. After `NoMemory` the list is unchanged.
    pub fn push(&mut self, item: usize) -> Result<(), NoMemory>
        ensures ok { OnOk result (self.new ≡ self.old ++ item ∷ []) }
        ensures err { OnErr result (self.new ≡ self.old) }
    {
        self.items.push(item)?;
        Ok(())
    }
}

/// Which calls fail, and how many were made and failed. Both numbers stand still at the greatest u64.
#[derive(Drop)]
pub(crate) struct Plan {
    failing: Vec<usize>,
    calls: u64,
    faults: u64,
}

impl Model for Plan {
    ghost use Rattle.sib_io.specs.Memory.{Plan as Planned};

    ghost Value = { Planned };

    ghost view = { λ p. record { failing = p.failing.items; calls = p.calls; faults = p.faults } };
}

impl Plan {
    pub(crate) fn new(failing: Calls) -> Plan
        ensures { result ≡ record { failing = failing; calls = 0; faults = 0 } }
    {
        Plan {
            failing: failing.items,
            calls: 0,
            faults: 0,
        }
    }

    /// Counts a call, and says whether it is to fail.
    pub(crate) fn is_next_failing(&mut self) -> bool
        ensures answer { result ≡ fails_next self.old }
        ensures counted { self.new ≡ record self.old { calls = one_more self.old.calls } }
    {
        self.calls = self.calls.saturating_add(1);
        let call = self.calls;
        self.failing.iter().any(|failing| *failing as u64 == call)
    }

    /// Counts a fault.
    pub(crate) fn fail(&mut self) -> Failed
        ensures counted { self.new ≡ record self.old { faults = one_more self.old.faults } }
        ensures within { self.old.faults < 2 ^ 64 }
    {
        self.faults = self.faults.saturating_add(1);
        Failed
    }
}
