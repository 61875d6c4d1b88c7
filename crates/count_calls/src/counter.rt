//! A machine that counts its calls.
use m3_terms::{NoMemory, Steps};
use space_turn::Machine;
use std::alloc::Global;
use std::sync::ledger::Ledger;
use std::thread::Threads;

/// How many calls were made.
#[derive(Drop)]
pub struct Counter {
    pub calls: u64,
}

impl Machine for Counter {
    ghost use Rattle.std.specs.Prelude.{◌≡◌, ◌+◌, length, ⊤};

    type Call = ();

    type Reply = u64;

    type Root = ();

    ghost root = { λ _. tt };

    ghost some_root = { tt };

    ghost stands = { λ counter calls. counter.calls ≡ length calls };

    ghost replies = { λ _ calls _. length calls + 1 };

    ghost lean = { λ _. ⊤ };

    fn step<R: Threads + Sync, L: Ledger>(
        &mut self,
        _alloc: Global,
        _rt: &R,
        _call: (),
        _steps: &mut Steps<L>,
    ) -> Result<u64, NoMemory> {
        self.calls += 1;
        Ok(self.calls)
    }
}
