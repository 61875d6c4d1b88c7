//! A desk over which one thread hands jobs to another.

use std::mem;
use std::sync::{Condvar, Mutex, Wait};

/// What lies on a desk.
#[derive(Drop)]
enum Slot<J> {
    /// Nothing.
    Free,
    /// A job that is to begin.
    Waits(J),
    /// Whether the last job began.
    Answered(bool),
    /// Nothing, and no job will come.
    Closed,
}

/// A desk over which one thread hands jobs to another, one after the other, and is told whether each began.
#[derive(Drop)]
pub(crate) struct Desk<J> {
    slot: Mutex<Slot<J>>,
    changed: Condvar,
}

impl<J: Drop> Desk<J> {
    /// A desk with nothing on it.
    pub(crate) fn new() -> Desk<J> {
        Desk {
            slot: Mutex::new(Slot::Free),
            changed: Condvar::new(),
        }
    }

    /// Hands a job over, and waits until it is known whether it began.
    pub(crate) fn hand_over<R: Wait>(&self, rt: &R, job: J) -> bool {
        self.put(rt, Slot::Waits(job));
        let slot = self.slot.lock(rt);
        let mut answered = self
            .changed
            .wait_while(rt, slot, |slot| !matches!(slot, Slot::Answered(_)));
        matches!(
            mem::replace(&mut *answered, Slot::Free),
            Slot::Answered(true)
        )
    }

    /// Waits for the next job, and takes it. `None` says that none will come.
    pub(crate) fn take<R: Wait>(&self, rt: &R) -> Option<J> {
        let slot = self.slot.lock(rt);
        let mut filled = self.changed.wait_while(rt, slot, |slot| {
            matches!(slot, Slot::Free | Slot::Answered(_))
        });
        match mem::replace(&mut *filled, Slot::Free) {
            Slot::Waits(job) => Some(job),
            Slot::Free | Slot::Answered(_) | Slot::Closed => None,
        }
    }

    /// Says whether the job that was taken began.
    pub(crate) fn answer<R: Wait>(&self, rt: &R, began: bool) {
        self.put(rt, Slot::Answered(began));
    }

    /// Says that no job will come.
    pub(crate) fn close<R: Wait>(&self, rt: &R) {
        self.put(rt, Slot::Closed);
    }

    // Puts something on the desk, and wakes who waits there.
    fn put<R: Wait>(&self, rt: &R, next: Slot<J>) {
        let mut slot = self.slot.lock(rt);
        *slot = next;
        self.changed.notify_all();
    }
}
