ghost use Rattle.std.specs.Prelude.{◌≡◌, [], Some, IfOk, OnOk};
ghost use Rattle.std.specs.Io.KnownBytes.{Keeps};
ghost use Rattle.sib_io.specs.Causes.{HasCause, Writes};
ghost use Rattle.sib_io.specs.Memory.{fails_next, WritesFilled, FlushesFilled};

use crate::calls::Plan;
use crate::piece::append;
use crate::{Calls, Failed, Sink};
use m3_terms::NoMemory;
use std::alloc::Global;
use std::marker::Model;

/// A sink in memory with room for so many bytes, whose calls fail where a list says so. A write that its list fails takes
/// nothing. One that does not fit fails too, and takes the longest prefix that fits.
#[derive(Drop)]
pub struct MemSink {
    bytes: Vec<u8>,
    room: usize,
    plan: Plan,
}

impl Model for MemSink {
    ghost use Rattle.std.specs.Prelude.{◌≤◌, vec_len, vec_capacity};
    ghost use Rattle.sib_io.specs.Memory.{Filled};

    ghost Value = { Filled };

    ghost view = { λ s. record { bytes = s.bytes.items; room = s.room; plan = s.plan } };

    ghost invariant = { λ s. (vec_len s.bytes ≤ s.room) × (s.room ≤ vec_capacity s.bytes) };
}

impl MemSink {
    /// An empty sink with memory for `room` bytes. The calls in `failing`, counted from 1, fail: writes and flushes.
    pub fn new(alloc: Global, room: usize, failing: Calls) -> Result<MemSink, NoMemory>
        ensures { IfOk result (λ sink. sink ≡ record { bytes = []; room = room; plan = record { failing = failing; calls = 0; faults = 0 } }) }
    {
        Ok(MemSink {
            bytes: Vec::with_capacity(alloc, room)?,
            room,
            plan: Plan::new(failing),
        })
    }

    /// The bytes that it was given.
    pub fn bytes(&self) -> &[u8]
        ensures { result.now ≡ self.now.bytes }
    {
        self.bytes.as_slice()
    }
}

impl Sink for MemSink {
    ghost given = { λ s. Some s.bytes };

    ghost handed = { λ s. Some s.bytes };

    ghost faults = { λ s. s.plan.faults };

    fn write_all(&mut self, bytes: &[u8]) -> Result<(), Failed>
        ensures bytes { Writes (Some self.old.bytes) (Some self.new.bytes) result bytes.now }
        ensures cause { HasCause self.old.plan.faults self.new.plan.faults result }
        ensures exact { WritesFilled (fails_next self.old.plan) self.old bytes.now result self.new }
    {
        if self.plan.is_next_failing() {
            return Err(self.plan.fail());
        }
        let free = self.room - self.bytes.len();
        let (fitting, rest) = bytes.split_at(bytes.len().min(free));
        append(&mut self.bytes, fitting);
        if !rest.is_empty() {
            return Err(self.plan.fail());
        }
        Ok(())
    }

    fn flush(&mut self) -> Result<(), Failed>
        ensures bytes { Keeps (Some self.old.bytes) (Some self.new.bytes) }
        ensures handed { OnOk result (Some self.new.bytes ≡ Some self.new.bytes) }
        ensures cause { HasCause self.old.plan.faults self.new.plan.faults result }
        ensures exact { FlushesFilled (fails_next self.old.plan) self.old result self.new }
    {
        if self.plan.is_next_failing() {
            return Err(self.plan.fail());
        }
        Ok(())
    }
}
