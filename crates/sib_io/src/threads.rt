//! Jobs in threads of their own.
ghost use Rattle.std.specs.Prelude.{None};

use crate::desk::Desk;
use crate::{Failed, Job, Spawner};
use m3_terms::NoMemory;
use std::alloc::Global;
use std::marker::{Send, Sync};
use std::sync::{Arc, Wait};
use std::thread;
use std::thread::Threads;
use std::time::{Clock, Duration};

/// How often a thread is asked for.
const TRIES: usize = 100;

/// How long is waited between two tries.
const TRY_MILLIS: u64 = 50;

/// A spawner that begins each job in a thread of its own, for whose end nobody waits. Where no thread can be made it tries again
/// for five seconds before it fails.
///
/// A thread of the spawner's makes the others, since what a trait's method sends to a thread is not covered by the borrow checker.
pub struct ThreadSpawner<J: Job, R: Wait + Drop> {
    desk: Arc<Desk<J>, Global>,
    rt: R,
    runs: bool,
    faults: u64,
}

impl<J: Job, R: Threads + Wait + Clock + Sync + Copy + Send + Drop + 'static> ThreadSpawner<J, R> {
    /// A spawner with its first thread, on which no call has failed. Where that thread can't be made each call fails.
    pub fn new(alloc: Global, rt: R) -> Result<ThreadSpawner<J, R>, NoMemory> {
        let desk = Arc::new(alloc, Desk::new())?;
        let theirs = Arc::try_clone(&desk)?;
        let runs = thread::spawn(&rt, move || dispatch(alloc, rt, &theirs)).is_ok();
        Ok(ThreadSpawner {
            desk,
            rt,
            runs,
            faults: 0,
        })
    }
}

impl<J: Job, R: Wait + Drop> Spawner<J> for ThreadSpawner<J, R> {
    ghost begun = { λ _. None };

    ghost faults = { λ s. s.faults };

    fn start(&mut self, job: J) -> Result<(), Failed> {
        if self.runs && self.desk.hand_over(&self.rt, job) {
            return Ok(());
        }
        self.faults = self.faults.saturating_add(1);
        Err(Failed)
    }
}

impl<J: Job, R: Wait + Drop> Drop for ThreadSpawner<J, R> {
    fn drop(self) {
        let ThreadSpawner {
            desk,
            rt,
            runs: _,
            faults: _,
        } = self;
        desk.close(&rt);
        drop(rt);
    }
}

// Begins the jobs that come to a desk, until it is closed.
fn dispatch<J: Job, R: Threads + Wait + Clock + Sync + Copy + Send + 'static>(
    alloc: Global,
    rt: R,
    desk: &Desk<J>,
) {
    for _ in rt.forever() {
        let Some(job) = desk.take(&rt) else {
            return;
        };
        let began = start_in_thread(alloc, rt, job);
        desk.answer(&rt, began);
    }
}

// Starts a thread that runs the job, and says whether one could be made. Where none can be made, it tries again for five
// seconds before it drops the job.
fn start_in_thread<J: Job, R: Threads + Wait + Clock + Sync + Copy + Send + 'static>(
    alloc: Global,
    rt: R,
    job: J,
) -> bool {
    let mut work = move || job.run(alloc, &rt);
    for attempt in 0..TRIES {
        if attempt > 0 {
            thread::sleep(&rt, Duration::from_millis(TRY_MILLIS));
        }
        match thread::spawn(&rt, work) {
            Ok(_) => return true,
            Err(refused) => work = refused.value,
        }
    }
    false
}
