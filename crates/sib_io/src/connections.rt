//! Where connections come from, and where jobs go that run beside this thread.
ghost use Rattle.std.specs.Prelude.{List, ℕ, Option};
ghost use Rattle.sib_io.specs.Causes.{HasCause};
ghost use Rattle.sib_io.specs.Connections.{Begins, GivesNext};

use crate::{Failed, Sink, Source};
use std::alloc::Global;
use std::marker::{Send, Sync};
use std::sync::Wait;
use std::thread::Threads;

/// Where connections come from, each as a source and a sink.
pub trait Accept {
    type Input: Source + Drop + Send + 'static;

    type Output: Sink + Drop + Send + 'static;

    /// The connections that wait, where it tells them.
    ghost waiting: { Self → Option (List (Self.Input × Self.Output)) };

    /// How many calls failed. The count never falls, and stands still at the greatest u64.
    ghost faults: { Self → ℕ };

    /// Takes out the first connection that waits and gives it, or `None` where none will come. After `Failed` none was taken.
    fn next(&mut self) -> Result<Option<(Self::Input, Self::Output)>, Failed>
        ensures connection { GivesNext (waiting self.old) (waiting self.new) result }
        ensures cause { HasCause (faults self.old) (faults self.new) result };
}

/// What is run beside this thread, once.
pub trait Job: Drop + Send + 'static {
    /// Runs the job to its end.
    fn run<R: Threads + Wait + Sync>(self, alloc: Global, rt: &R);
}

/// What begins jobs.
pub trait Spawner<J: Job> {
    /// The jobs that were begun, in order, where it tells them.
    ghost begun: { Self → Option (List J) };

    /// How many calls failed. The count never falls, and stands still at the greatest u64.
    ghost faults: { Self → ℕ };

    /// Begins the job. After `Failed` the job was dropped.
    fn start(&mut self, job: J) -> Result<(), Failed>
        ensures jobs { Begins (begun self.old) (begun self.new) job result }
        ensures cause { HasCause (faults self.old) (faults self.new) result };
}
