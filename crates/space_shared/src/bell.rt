//! Bells: who waits for messages on a link sleeps until its bell is rung.

use std::sync::{Condvar, Mutex, Wait};

/// A counter of rings, at which threads may wait. Links share bells, so a ring wakes all that wait.
#[derive(Drop)]
pub(crate) struct Bell {
    rings: Mutex<u64>,
    rung: Condvar,
}

impl Bell {
    /// A bell that nobody rang.
    pub(crate) fn new() -> Bell {
        Bell {
            rings: Mutex::new(0),
            rung: Condvar::new(),
        }
    }

    /// How often it was rung.
    pub(crate) fn rings<R: Wait>(&self, rt: &R) -> u64 {
        *self.rings.lock(rt)
    }

    /// Rings it.
    pub(crate) fn ring<R: Wait>(&self, rt: &R) {
        let mut rings = self.rings.lock(rt);
        *rings = rings.wrapping_add(1);
        self.rung.notify_all();
    }

    /// Waits while it was rung just so often.
    pub(crate) fn wait<R: Wait>(&self, rt: &R, heard: u64) {
        let rings = self.rings.lock(rt);
        drop(self.rung.wait_while(rt, rings, |rings| *rings == heard));
    }
}
