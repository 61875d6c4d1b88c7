ghost use Rattle.std.specs.Prelude.{◌≡◌, ◌≤◌, [], Some, length};
ghost use Rattle.sib_io.specs.Memory.{fails_next, ReadsHeld};
ghost use Rattle.std.specs.Io.{ReadsAtMost};
ghost use Rattle.std.specs.Io.KnownBytes.{ReadConsumes};
ghost use Rattle.sib_io.specs.Causes.{HasCause};

use crate::calls::Plan;
use crate::give::give;
use crate::{Calls, Failed, Source};
use m3_terms::Bytes;
use std::marker::Model;

/// A source over bytes in memory, whose calls fail where a list says so.
#[derive(Drop)]
pub struct MemSource {
    bytes: Vec<u8>,
    at: usize,
    piece: usize,
    plan: Plan,
}

impl Model for MemSource {
    ghost use Rattle.std.specs.Prelude.{drop, ◌≤◌, vec_len};
    ghost use Rattle.sib_io.specs.Memory.{Held};

    ghost Value = { Held };

    ghost view = { λ s. record { left = drop s.at s.bytes.items; piece = s.piece; plan = s.plan } };

    ghost invariant = { λ s. (s.at ≤ vec_len s.bytes) × (1 ≤ s.piece) };
}

impl MemSource {
    /// A source of these bytes. A read gives at most `piece` of them, and the calls in `failing`, counted from 1, fail.
    pub fn new(bytes: Bytes, piece: usize, failing: Calls) -> MemSource
        requires { 1 ≤ piece }
        ensures { result ≡ record { left = bytes; piece = piece; plan = record { failing = failing; calls = 0; faults = 0 } } }
    {
        MemSource {
            bytes: bytes.into_vec(),
            at: 0,
            piece,
            plan: Plan::new(failing),
        }
    }
}

impl Source for MemSource {
    ghost left = { λ s. Some s.left };

    ghost faults = { λ s. s.plan.faults };

    fn read(&mut self, into: &mut [u8]) -> Result<usize, Failed>
        ensures within { ReadsAtMost result into.new }
        ensures bytes { ReadConsumes (Some self.old.left) (Some self.new.left) result into.new }
        ensures cause { HasCause self.old.plan.faults self.new.plan.faults result }
        ensures exact { ReadsHeld (fails_next self.old.plan) self.old (length into.old) result self.new }
    {
        if self.plan.is_next_failing() {
            return Err(self.plan.fail());
        }
        let left = self.bytes.as_slice().split_at(self.at).1;
        let front = left.split_at(left.len().min(self.piece)).0;
        let count = give(front, into);
        self.at += count;
        Ok(count)
    }
}
