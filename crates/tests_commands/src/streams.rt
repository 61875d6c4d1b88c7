//! `check` and `show`.

use crate::run::{Trial, check, plain, ran, together};
use crate::texts::{INSERT, JOIN, JOIN_SHOWN, QUERY};
use std::alloc::Global;
use std::process::Abort;
use std::test::Fail;
use std::thread::Threads;

#[test]
fn streams_are_counted(rt: HostRuntime) -> Result<(), Fail> {
    let alloc = rt.alloc();
    let three = together(alloc, &[JOIN, INSERT, QUERY])?;
    check(alloc, &rt, plain(&["check"]), three.as_bytes(), 0, "ok 3\n")?;
    check(alloc, &rt, plain(&["check"]), b"", 0, "ok 0\n")?;
    check(alloc, &rt, plain(&["check"]), b" \r\n\t", 0, "ok 0\n")
}

#[test]
fn messages_are_shown_in_their_canonical_spelling(rt: HostRuntime) -> Result<(), Fail> {
    let alloc = rt.alloc();
    let shown = together(alloc, &[JOIN_SHOWN, "\n"])?;
    check(alloc, &rt, plain(&["show"]), JOIN.as_bytes(), 0, &shown)?;
    let twice = together(alloc, &[JOIN_SHOWN, "\n", JOIN_SHOWN, "\n"])?;
    check(alloc, &rt, plain(&["show"]), twice.as_bytes(), 0, &twice)?;
    check(alloc, &rt, plain(&["show"]), b"", 0, "")
}

#[test]
fn stops_are_told_with_their_place(rt: HostRuntime) -> Result<(), Fail> {
    let alloc = rt.alloc();
    check(
        alloc,
        &rt,
        plain(&["check"]),
        b"<SSAP_message><x",
        1,
        "! 15 syntax\n",
    )?;
    check(
        alloc,
        &rt,
        plain(&["show"]),
        b"<SSAP_message><x",
        1,
        "! 15 syntax\n",
    )?;
    check(alloc, &rt, plain(&["check"]), b"<SSAP", 1, "! 0 cut\n")?;
    let cut = together(alloc, &[JOIN, "<SSAP"])?;
    check(
        alloc,
        &rt,
        plain(&["check"]),
        cut.as_bytes(),
        1,
        "! 231 cut\n",
    )?;
    let shown = together(alloc, &[JOIN_SHOWN, "\n! 231 cut\n"])?;
    check(alloc, &rt, plain(&["show"]), cut.as_bytes(), 1, &shown)
}

#[test]
fn other_words_are_no_form(rt: HostRuntime) -> Result<(), Fail> {
    let alloc = rt.alloc();
    for words in [
        &["check", "x"][..],
        &["show", "x"],
        &["checks"],
        &["Show"],
        &[""],
        &[],
    ] {
        check(alloc, &rt, plain(words), JOIN.as_bytes(), 2, "")?;
    }
    Ok(())
}

// A run of `show` on one message, which a read or a write fails, gives so many bytes of the output, and has this status.
fn check_cut<R: Threads + Sync + Abort>(
    alloc: Global,
    rt: &R,
    failing_read: usize,
    failing_write: usize,
    status: u8,
    length: usize,
) -> Result<(), Fail> {
    let shown = together(alloc, &[JOIN_SHOWN, "\n"])?;
    let trial = Trial {
        words: &["show"],
        piece: 128,
        room: 4096,
        failing_read,
        failing_write,
    };
    let ended = ran(alloc, rt, trial, JOIN.as_bytes())?;
    assert_eq!(rt; ended.status, status);
    assert!(rt; ended.written.as_slice() == shown.as_bytes().split_at(length.min(shown.len())).0);
    Ok(())
}

// Two reads give the message, and the third finds the end. The sink is flushed before each read and at the end.
#[test]
fn the_first_reads_and_writes_fail_in_turn(rt: HostRuntime) -> Result<(), Fail> {
    let alloc = rt.alloc();
    for failing_read in [1, 2] {
        check_cut(alloc, &rt, failing_read, 0, 4, 0)?;
    }
    check_cut(alloc, &rt, 3, 0, 4, 230)?;
    for failing_write in [1, 2, 3] {
        check_cut(alloc, &rt, 0, failing_write, 5, 0)?;
    }
    Ok(())
}
