//! Calls by a lock: a number under std's `Mutex`.
use std::sync::{Mutex, Wait};
use std::thread;
use std::thread::Threads;

/// One thread adds 1 so often.
pub fn by_lock<R: Wait>(rt: &R, calls: u64) -> u64 {
    let number = Mutex::new(0u64);
    add_all(rt, &number, calls);
    *number.lock(rt)
}

/// Four threads add 1 so often each.
pub fn by_locks<R: Threads + Wait + Sync>(rt: &R, calls: u64) -> u64 {
    let number = Mutex::new(0u64);
    thread::join(rt, || two(rt, &number, calls), || two(rt, &number, calls));
    *number.lock(rt)
}

fn two<R: Threads + Wait + Sync>(rt: &R, number: &Mutex<u64>, calls: u64) {
    thread::join(
        rt,
        || add_all(rt, number, calls),
        || add_all(rt, number, calls),
    );
}

fn add_all<R: Wait>(rt: &R, number: &Mutex<u64>, calls: u64) {
    for _ in 0..calls {
        let mut held = number.lock(rt);
        *held = held.wrapping_add(1);
    }
}
