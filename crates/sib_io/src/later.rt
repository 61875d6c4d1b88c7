//! Jobs that are kept in memory until they are run.
ghost use Rattle.std.specs.Prelude.{◌≡◌, [], Some, IfOk};
ghost use Rattle.sib_io.specs.Causes.{HasCause};
ghost use Rattle.sib_io.specs.Connections.{Begins};
ghost use Rattle.sib_io.specs.Waiting.{StartsLater};

use crate::{Failed, Job, Spawner};
use m3_terms::NoMemory;
use std::alloc::Global;
use std::marker::{Model, Sync};
use std::sync::Wait;
use std::thread::Threads;

/// A spawner that keeps its jobs, so many as it has room for, until it is told to run them.
#[derive(Drop)]
pub struct LaterSpawner<J: Job> {
    kept: Vec<J>,
    room: usize,
    faults: u64,
}

impl<J: Job> Model for LaterSpawner<J> {
    ghost use Rattle.std.specs.Prelude.{◌≤◌, vec_len, vec_capacity};
    ghost use Rattle.sib_io.specs.Waiting.{Later};

    ghost Value = { Later J };

    ghost view = { λ s. record { kept = s.kept.items; room = s.room; faults = s.faults } };

    ghost invariant = { λ s. (vec_len s.kept ≤ s.room) × (s.room ≤ vec_capacity s.kept) };
}

impl<J: Job> LaterSpawner<J> {
    /// A spawner with memory for `room` jobs, which keeps none yet.
    pub fn new(alloc: Global, room: usize) -> Result<LaterSpawner<J>, NoMemory>
        ensures { IfOk result (λ spawner. spawner ≡ record { kept = []; room = room; faults = 0 }) }
    {
        Ok(LaterSpawner {
            kept: Vec::with_capacity(alloc, room)?,
            room,
            faults: 0,
        })
    }

    /// Runs the jobs in order, and keeps none then.
    pub fn run_all<R: Threads + Wait + Sync>(&mut self, alloc: Global, rt: &R)
        ensures { self.new ≡ record self.old { kept = [] } }
    {
        for job in self.kept.drain(..) {
            job.run(alloc, rt);
        }
    }
}

impl<J: Job> Spawner<J> for LaterSpawner<J> {
    ghost begun = { λ s. Some s.kept };

    ghost faults = { λ s. s.faults };

    fn start(&mut self, job: J) -> Result<(), Failed>
        ensures jobs { Begins (Some self.old.kept) (Some self.new.kept) job result }
        ensures cause { HasCause self.old.faults self.new.faults result }
        ensures exact { StartsLater self.old job result self.new }
    {
        if self.kept.len() >= self.room {
            self.faults = self.faults.saturating_add(1);
            return Err(Failed);
        }
        let Ok(()) = self.kept.push(job) else {
            unreachable!()
        };
        Ok(())
    }
}
