//! `make`: what is made is replayed as the trial of as many updates.

use crate::run::{Ended, Trial, check, plain, ran};
use std::alloc::Global;
use std::process::Abort;
use std::test::Fail;
use std::thread::Threads;

// The last bytes of what a run wrote.
fn ends_with<R: Threads + Sync + Abort>(rt: &R, ended: &Ended, last: &[u8]) {
    assert_eq!(rt; ended.status, 0);
    assert!(rt; ended.written.as_slice().ends_with(last));
}

// The script of so many updates, replayed in its space, ends with this line.
fn replayed<R: Threads + Sync + Abort>(
    alloc: Global,
    rt: &R,
    updates: &str,
    last: &[u8],
) -> Result<(), Fail> {
    let made = ran(alloc, rt, plain(&["make", updates]), b"")?;
    assert_eq!(rt; made.status, 0);
    assert!(rt;
        made.written
            .as_slice()
            .starts_with(b"+\n>1 186\n<SSAP_message><message_type>REQUEST")
    );
    let ended = ran(alloc, rt, plain(&["replay", "trial"]), &made.written)?;
    ends_with(rt, &ended, last);
    Ok(())
}

#[test]
fn made_scripts_are_replayed(rt: HostRuntime) -> Result<(), Fail> {
    let alloc = rt.alloc();
    replayed(alloc, &rt, "1", b"\n= 1 1 50\n")?;
    replayed(alloc, &rt, "21", b"\n= 21 20 50\n")
}

#[test]
fn other_numbers_are_no_form(rt: HostRuntime) -> Result<(), Fail> {
    let alloc = rt.alloc();
    for number in ["0", "01", "10001", "+1", "-1", " 1", "1 ", "x", ""] {
        check(alloc, &rt, plain(&["make", number]), b"", 2, "")?;
        check(alloc, &rt, plain(&["trial", number]), b"", 2, "")?;
    }
    check(alloc, &rt, plain(&["make"]), b"", 2, "")
}

#[test]
fn a_write_fails(rt: HostRuntime) -> Result<(), Fail> {
    let alloc = rt.alloc();
    let trial = Trial {
        words: &["make", "1"],
        piece: 1,
        room: 4096,
        failing_read: 0,
        failing_write: 1,
    };
    check(alloc, &rt, trial, b"", 5, "")
}
