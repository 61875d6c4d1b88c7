//! Runs over TCP, with a peer in a thread that follows a script. A read that waits for ten seconds fails.

use crate::messages::{
    ANSWERED_NONE, GAINED, INSERTED, JOINED, LEFT, LEFT_LAST, LOST, OVER, SUBSCRIBED, TEXT,
    UNSUBSCRIBED,
};
use crate::texts::owned;
use sib_app::kp_run;
use sib_io::{Calls, MemSink, StdSink, StdSource};
use std::alloc::Global;
use std::io::{self, Read, Write};
use std::net::{Ipv4Addr, Net, SocketAddr, TcpListener, TcpStream};
use std::process::Abort;
use std::test::Fail;
use std::thread::{self, Threads};
use std::time::Duration;

/// The longest wait of a read, in seconds.
const PATIENCE: u64 = 10;

/// How each request ends.
const REQUEST_END: &[u8] = b"</SSAP_message>";

// What the peer answers to each request, so many bytes at a time. Behind the last answer it closes.
#[derive(Clone, Copy)]
struct Script {
    answers: &'static [&'static [&'static str]],
    piece: usize,
}

// Reads up to the end of a request, a byte at a time.
fn take_request(stream: &mut &TcpStream) -> io::Result<()> {
    let mut matched = 0;
    let mut byte = [0u8; 1];
    for _ in 0..4096 {
        stream.read_exact(&mut byte)?;
        matched = matched_by(matched, byte[0]);
        if matched == REQUEST_END.len() {
            return Ok(());
        }
    }
    Ok(())
}

// How many bytes of the end of a request stand behind this byte.
fn matched_by(matched: usize, byte: u8) -> usize {
    if REQUEST_END.get(matched) == Some(&byte) {
        return matched.saturating_add(1);
    }
    if byte == b'<' { 1 } else { 0 }
}

// Follows the script.
fn follow(stream: TcpStream, script: Script) -> io::Result<()> {
    let mut stream = &stream;
    stream.set_nodelay(true)?;
    stream.set_read_timeout(Some(Duration::from_secs(PATIENCE)))?;
    for answer in script.answers {
        take_request(&mut stream)?;
        for message in *answer {
            send(&mut stream, message, script.piece)?;
        }
    }
    Ok(())
}

fn send(stream: &mut &TcpStream, message: &str, piece: usize) -> io::Result<()> {
    for part in message.as_bytes().chunks(piece.max(1)) {
        stream.write_all(part)?;
    }
    Ok(())
}

// The two ends of a connection.
fn connected<R: Net<Listener = TcpListener, Stream = TcpStream>>(
    rt: &R,
) -> io::Result<(TcpStream, TcpStream)> {
    let listener = TcpListener::bind(rt, SocketAddr::from((Ipv4Addr::LOCALHOST, 0)))?;
    let near = TcpStream::connect(rt, listener.local_addr()?)?;
    near.set_read_timeout(Some(Duration::from_secs(PATIENCE)))?;
    let (far, _) = listener.accept()?;
    Ok((near, far))
}

// Runs the words over this end of a connection, and closes it.
fn asked(alloc: Global, words: &[String], near: TcpStream, out: &mut MemSink) -> u8 {
    let mut source = StdSource::new(&near);
    let mut sink = StdSink::new(&near);
    kp_run(alloc, words, &mut source, &mut sink, out)
}

fn check<R>(rt: &R, words: &[&str], script: Script, status: u8, printed: &str) -> Result<(), Fail>
where
    R: Net<Listener = TcpListener, Stream = TcpStream> + Threads + AllocGlobal + Abort,
{
    let words = owned(rt.alloc(), words)?;
    let mut out = MemSink::new(rt.alloc(), 4096, Calls::new(rt.alloc()))?;
    let (near, far) = connected(rt)?;
    let peer = thread::spawn(rt, move || follow(far, script))?;
    let ended = asked(rt.alloc(), &words, near, &mut out);
    peer.join(rt)?;
    assert_eq!(rt; ended, status, "the status beside {printed}");
    assert!(rt; out.bytes() == printed.as_bytes(), "the output {printed}");
    Ok(())
}

// What the peer answers to each request of a talk that comes to its end.
const INSERTS: &[&[&str]] = &[&[JOINED], &[INSERTED], &[LEFT]];

const ANSWERS: &[&[&str]] = &[&[JOINED], &[ANSWERED_NONE], &[LEFT]];

const CHANGES: &[&[&str]] = &[
    &[JOINED],
    &[SUBSCRIBED, GAINED, LOST],
    &[UNSUBSCRIBED, OVER],
    &[LEFT_LAST],
];

const INSERT_WORDS: &[&str] = &["insert", "X", "k", "a", "p", "literal", "1"];

const QUERY_WORDS: &[&str] = &["query", "X", "k", TEXT];

const WATCH_WORDS: &[&str] = &["watch", "X", "k", TEXT, "2"];

const WATCHED: &str = "answer 0 0\nanswer 1 1\n<a>\nanswer 2 0\n";

#[test]
fn each_form_talks_over_tcp(rt: HostRuntime) -> Result<(), Fail> {
    for piece in [4096, 1] {
        check(
            &rt,
            INSERT_WORDS,
            Script {
                answers: INSERTS,
                piece,
            },
            0,
            "ok\n",
        )?;
        check(
            &rt,
            QUERY_WORDS,
            Script {
                answers: ANSWERS,
                piece,
            },
            0,
            "answer 0 0\n",
        )?;
        check(
            &rt,
            WATCH_WORDS,
            Script {
                answers: CHANGES,
                piece,
            },
            0,
            WATCHED,
        )?;
    }
    Ok(())
}

// What a peer answers to the request to join before it closes, the status, and what is printed.
const CLOSED: &[(&[&[&str]], u8, &str)] = &[
    (&[&[]], 10, "ended\n"),
    (
        &[&["<SSAP_message><message_type>CONF"]],
        9,
        "broken stream 0 cut\n",
    ),
    (&[&["no message"]], 9, "broken stream 0 syntax\n"),
    (
        &[&[JOINED], &["no message"]],
        9,
        "broken stream 229 syntax\n",
    ),
];

#[test]
fn peers_that_close_or_send_no_messages(rt: HostRuntime) -> Result<(), Fail> {
    for (answers, status, printed) in CLOSED {
        let script = Script {
            answers,
            piece: 4096,
        };
        check(&rt, INSERT_WORDS, script, *status, printed)?;
    }
    Ok(())
}
