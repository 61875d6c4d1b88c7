//! Runs over memory: what each form of words prints and asks for, and how it ends.

use crate::messages::{
    ANSWERED_NONE, ANSWERED_TWO, EXHAUSTED, GAINED, INSERT, INSERTED, JOIN, JOINED, LEAVE,
    LEAVE_LAST, LEFT, LEFT_LAST, LOST, LOST_LATER, OVER, QUERY, REFUSED, SUBSCRIBE, SUBSCRIBED,
    TEXT, UNSUBSCRIBE, UNSUBSCRIBED,
};
use crate::texts::{owned, together};
use m3_terms::Bytes;
use sib_app::kp_run;
use sib_io::{Calls, MemSink, MemSource};
use std::alloc::Global;
use std::process::Abort;
use std::test::Fail;

// What a run ended with, what it asked for, and what it printed.
#[derive(Drop)]
struct Ended {
    status: u8,
    asked: Vec<u8>,
    printed: Vec<u8>,
}

// A form of words, what the broker sends, the status of the run, and what is printed.
#[derive(Clone, Copy)]
struct Case<'a> {
    words: &'a [&'a str],
    sent: &'a [&'a str],
    status: u8,
    printed: &'a str,
}

const INSERT_WORDS: &[&str] = &["insert", "X", "k", "a", "p", "literal", "1"];

const QUERY_WORDS: &[&str] = &["query", "X", "k", TEXT];

const WATCH_NONE: &[&str] = &["watch", "X", "k", TEXT, "0"];

const WATCH_ONE: &[&str] = &["watch", "X", "k", TEXT, "1"];

const WATCH_TWO: &[&str] = &["watch", "X", "k", TEXT, "2"];

// A source of these bytes, a byte at a time, whose read of this number fails, if it is not 0.
fn source(alloc: Global, sent: &str, failing: usize) -> Result<MemSource, Fail> {
    let mut calls = Calls::new(alloc);
    if failing > 0 {
        calls.push(failing)?;
    }
    Ok(MemSource::new(Bytes::from_slice(alloc, sent.as_bytes())?, 1, calls))
}

fn empty_sink(alloc: Global) -> Result<MemSink, Fail> {
    Ok(MemSink::new(alloc, 4096, Calls::new(alloc))?)
}

fn ran(alloc: Global, words: &[&str], sent: &str, failing: usize) -> Result<Ended, Fail> {
    let words = owned(alloc, words)?;
    let mut source = source(alloc, sent, failing)?;
    let mut sink = empty_sink(alloc)?;
    let mut out = empty_sink(alloc)?;
    let status = kp_run(alloc, &words, &mut source, &mut sink, &mut out);
    Ok(Ended {
        status,
        asked: Vec::from_slice(alloc, sink.bytes())?,
        printed: Vec::from_slice(alloc, out.bytes())?,
    })
}

fn check<R: Abort>(rt: &R, ended: &Ended, status: u8, printed: &str) {
    assert_eq!(rt; ended.status, status, "the status beside {printed}");
    assert!(rt;
        ended.printed.as_slice() == printed.as_bytes(),
        "the output {printed}"
    );
}

fn check_all<R: Abort>(rt: &R, alloc: Global, cases: &[Case<'_>]) -> Result<(), Fail> {
    for case in cases {
        let sent = together(alloc, case.sent)?;
        let ended = ran(alloc, case.words, &sent, 0)?;
        check(rt, &ended, case.status, case.printed);
    }
    Ok(())
}

#[test]
fn tasks_that_are_done(rt: HostRuntime) -> Result<(), Fail> {
    let cases = [
        Case {
            words: INSERT_WORDS,
            sent: &[JOINED, INSERTED, LEFT],
            status: 0,
            printed: "ok\n",
        },
        Case {
            words: QUERY_WORDS,
            sent: &[JOINED, ANSWERED_NONE, LEFT],
            status: 0,
            printed: "answer 0 0\n",
        },
        Case {
            words: QUERY_WORDS,
            sent: &[JOINED, ANSWERED_TWO, LEFT],
            status: 0,
            printed: "answer 0 2\n<a&amp;b>\t-\n<a&amp;b>\t\"&lt;1&gt;\"\n",
        },
        Case {
            words: WATCH_NONE,
            sent: &[JOINED, SUBSCRIBED, UNSUBSCRIBED, LEFT_LAST],
            status: 0,
            printed: "answer 0 0\n",
        },
        Case {
            words: WATCH_TWO,
            sent: &[
                JOINED,
                SUBSCRIBED,
                GAINED,
                LOST,
                UNSUBSCRIBED,
                OVER,
                LEFT_LAST,
            ],
            status: 0,
            printed: "answer 0 0\nanswer 1 1\n<a>\nanswer 2 0\n",
        },
    ];
    check_all(&rt, rt.alloc(), &cases)
}

#[test]
fn tasks_that_are_not_done(rt: HostRuntime) -> Result<(), Fail> {
    let cases = [
        Case {
            words: WATCH_TWO,
            sent: &[JOINED, SUBSCRIBED, GAINED, LOST_LATER],
            status: 9,
            printed: "answer 0 0\nanswer 1 1\n<a>\nbroken gap 2 3\n",
        },
        Case {
            words: WATCH_ONE,
            sent: &[JOINED, SUBSCRIBED, EXHAUSTED],
            status: 8,
            printed: "answer 0 0\nended m3:SIB.Failure.OutOfResources\n",
        },
        Case {
            words: WATCH_ONE,
            sent: &[JOINED],
            status: 10,
            printed: "ended\n",
        },
        Case {
            words: WATCH_ONE,
            sent: &[JOINED, "<SSAP"],
            status: 9,
            printed: "broken stream 229 cut\n",
        },
        Case {
            words: INSERT_WORDS,
            sent: &[REFUSED],
            status: 8,
            printed: "refused m3:KP.Error.Request\n",
        },
    ];
    check_all(&rt, rt.alloc(), &cases)
}

#[test]
fn a_read_fails_behind_a_change(rt: HostRuntime) -> Result<(), Fail> {
    let alloc = rt.alloc();
    let before = together(alloc, &[JOINED, SUBSCRIBED, GAINED])?;
    let sent = together(alloc, &[&before, LOST, UNSUBSCRIBED, OVER, LEFT_LAST])?;
    let ended = ran(alloc, WATCH_TWO, &sent, before.len().saturating_add(1))?;
    check(&rt, &ended, 4, "answer 0 0\nanswer 1 1\n<a>\n");
    Ok(())
}

// The words, what the broker sends, and the requests.
const ASKED: &[(&[&str], &[&str], &[&str])] = &[
    (
        INSERT_WORDS,
        &[JOINED, INSERTED, LEFT],
        &[JOIN, INSERT, LEAVE],
    ),
    (
        QUERY_WORDS,
        &[JOINED, ANSWERED_NONE, LEFT],
        &[JOIN, QUERY, LEAVE],
    ),
    (
        WATCH_NONE,
        &[JOINED, SUBSCRIBED, UNSUBSCRIBED, LEFT_LAST],
        &[JOIN, SUBSCRIBE, UNSUBSCRIBE, LEAVE_LAST],
    ),
];

#[test]
fn requests_are_spelled_canonically(rt: HostRuntime) -> Result<(), Fail> {
    let alloc = rt.alloc();
    for (words, sent, asked) in ASKED {
        let ended = ran(alloc, words, &together(alloc, sent)?, 0)?;
        let asked = together(alloc, asked)?;
        assert!(rt;
            ended.asked.as_slice() == asked.as_bytes(),
            "the requests {asked}"
        );
    }
    Ok(())
}

// Words that are no form.
const NO_FORMS: &[&[&str]] = &[
    &[],
    &["insert"],
    &["leave", "X", "k"],
    &["query", "X", "k"],
    &["query", "X", "k", TEXT, "1"],
    &["watch", "X", "k", TEXT, "01"],
    &["watch", "X", "k", TEXT, "1000001"],
    &["watch", "X", "k", TEXT, "x"],
    &["insert", "X", "k", "a", "p", "bnode", "1"],
    &["insert", "", "k", "a", "p", "literal", "1"],
    &["insert", "X", "k", "", "p", "literal", "1"],
];

// The first read would fail, so where the status is 2 nothing was read.
#[test]
fn words_that_are_no_form_do_nothing(rt: HostRuntime) -> Result<(), Fail> {
    for words in NO_FORMS {
        let ended = ran(rt.alloc(), words, JOINED, 1)?;
        check(&rt, &ended, 2, "");
        assert!(rt; ended.asked.is_empty());
    }
    Ok(())
}
