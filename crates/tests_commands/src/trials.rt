//! `trial`, the large run among them.

use crate::run::{Trial, check, plain};
use std::test::Fail;

#[test]
fn small_trials(rt: HostRuntime) -> Result<(), Fail> {
    let alloc = rt.alloc();
    let one = "confirms 52 indications 10\n= 1 1 50\n";
    check(alloc, &rt, plain(&["trial", "1"]), b"x", 0, one)?;
    let two = "confirms 53 indications 20\n= 2 2 50\n";
    check(alloc, &rt, plain(&["trial", "2"]), b"", 0, two)?;
    let more = "confirms 72 indications 210\n= 21 20 50\n";
    check(alloc, &rt, plain(&["trial", "21"]), b"", 0, more)
}

#[test]
fn the_large_run(rt: HostRuntime) -> Result<(), Fail> {
    let output = "confirms 10051 indications 100000\n= 10000 20 50\n";
    check(rt.alloc(), &rt, plain(&["trial", "10000"]), b"", 0, output)
}

#[test]
fn a_flush_fails(rt: HostRuntime) -> Result<(), Fail> {
    let trial = Trial {
        words: &["trial", "1"],
        piece: 1,
        room: 4096,
        failing_read: 0,
        failing_write: 1,
    };
    check(rt.alloc(), &rt, trial, b"", 5, "")
}
