//! A space as a machine, so that threads may share it by a turn.
use crate::{Call, Core, Reply};
use m3_terms::{NoMemory, Steps, Text};
use space_turn::Machine;
use std::alloc::Global;
use std::sync::ledger::Ledger;
use std::thread::Threads;

impl Machine for Core {
    ghost use Rattle.std.specs.Prelude.{[]};
    ghost use Rattle.session_core.specs.Runs.{StandsFor, reply_to};
    ghost use Rattle.session_core.specs.Steps.{IsLean};

    type Call = Call;

    type Reply = Reply;

    type Root = Text;

    ghost root = { λ core. core.space.name };

    ghost some_root = { [] };

    ghost stands = { λ core calls. StandsFor core.space.name calls core };

    ghost replies = { reply_to };

    ghost lean = { IsLean };

    fn step<R: Threads + Sync, L: Ledger>(
        &mut self,
        alloc: Global,
        _rt: &R,
        call: Call,
        steps: &mut Steps<L>,
    ) -> Result<Reply, NoMemory> {
        let reply = self.store.call(alloc, call, steps)?;
        self.count += 1;
        Ok(reply)
    }
}
