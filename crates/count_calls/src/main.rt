//! Counts calls by a turn and by a lock, for bench/turn.sh: `count_calls WAY CALLS`, where WAY is seat, seats, lock or locks.
//! One thread makes so many calls, or four threads make so many each. Without words it goes each way with a thousand calls.
#![tactic(auto)]

mod counter;
mod locks;
mod seats;

use crate::locks::{by_lock, by_locks};
use crate::seats::{by_seat, by_seats};
use space_turn::CallFault;
use std::alloc::Global;
use std::env;
use std::io::{self, Print};
use std::process::ExitCode;
use std::rt::Env;
use std::sync::Wait;
use std::thread::Threads;

/// How many calls a thread makes where no number is given.
const FEW: u64 = 1000;

fn main(rt: HostRuntime) -> ExitCode {
    let Ok(words) = words(&rt) else {
        return ExitCode::from(1);
    };
    if run(&rt, rt.alloc(), &words).is_some() {
        ExitCode::SUCCESS
    } else {
        ExitCode::from(1)
    }
}

// The words of the command line, without the program's name.
fn words(rt: &(impl Env + AllocGlobal)) -> io::Result<Vec<String>> {
    let mut words = env::args(rt)?.collect::<Vec<String>>(rt.alloc())?;
    if !words.is_empty() {
        words.remove(0);
    }
    Ok(words)
}

// Goes the way that the words name, or each. `None` where they name none, or a call failed.
fn run<R: Threads + Wait + Sync + Print>(rt: &R, alloc: Global, words: &[String]) -> Option<()> {
    match words {
        [] => {
            for way in ["seat", "seats", "lock", "locks"] {
                go(rt, alloc, way, FEW)?;
            }
            Some(())
        }
        [way, calls] => go(rt, alloc, way.as_str(), calls.parse::<u64>().ok()?),
        _ => None,
    }
}

// Goes one way, and prints how many calls were counted.
fn go<R: Threads + Wait + Sync + Print>(
    rt: &R,
    alloc: Global,
    way: &str,
    calls: u64,
) -> Option<()> {
    let counted = count(rt, alloc, way, calls).ok()??;
    println!(rt; "{way} {counted}").ok()
}

// How many calls were counted, or `None` where the way has another name.
fn count<R: Threads + Wait + Sync>(
    rt: &R,
    alloc: Global,
    way: &str,
    calls: u64,
) -> Result<Option<u64>, CallFault> {
    match way {
        "seat" => Ok(Some(by_seat(rt, alloc, calls)?)),
        "seats" => Ok(Some(by_seats(rt, alloc, calls)?)),
        "lock" => Ok(Some(by_lock(rt, calls))),
        "locks" => Ok(Some(by_locks(rt, calls))),
        _ => Ok(None),
    }
}
