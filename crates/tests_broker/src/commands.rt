//! Runs of `replay X` over memory: worked scripts with what they write, and the calls of the outside that fail.

ghost use Rattle.std.specs.Prelude.{◌≡◌, ◌<◌};

use m3_terms::{Bytes, Steps};
use sib_app::sib_run;
use sib_io::{Calls, INPUT_LIMIT, MemSink, MemSource};
use sib_replay::{
    messages_are_written_as_sent, outputs_are_told, outputs_exist, spaces_are_run,
    subscriptions_are_followed,
};
use std::alloc::Global;
use std::marker::Brand;
use std::process::Abort;
use std::sync::ledger::{Blank, Ledger};
use std::test::Fail;
use std::thread::Threads;

const JOIN: &str =
    "<SSAP_message><message_type>REQUEST</message_type><transaction_type>JOIN</transaction_type><transaction_id>1</transaction_id><node_id>k</node_id><space_id>X</space_id></SSAP_message>";

const INSERT: &str =
    "<SSAP_message><message_type>REQUEST</message_type><transaction_type>INSERT</transaction_type><transaction_id>2</transaction_id><node_id>k</node_id><space_id>X</space_id><parameter name=\"insert_graph\" encoding=\"RDF-M3\"><triple_list><triple><subject type=\"uri\">lamp</subject><predicate>state</predicate><object type=\"literal\">on</object></triple></triple_list></parameter></SSAP_message>";

// A JOIN in another order, with credentials and white space in a tag.
const JOIN_OTHERWISE: &str =
    "<SSAP_message><node_id>k</node_id><space_id>X</space_id><transaction_type>JOIN</transaction_type><message_type>REQUEST</message_type><transaction_id>1</transaction_id><parameter name = \"credentials\">XYZZY</parameter></SSAP_message>";

// An INSERT in another order, with a wish for a confirm.
const INSERT_OTHERWISE: &str =
    "<SSAP_message><node_id>k</node_id><space_id>X</space_id><transaction_type>INSERT</transaction_type><message_type>REQUEST</message_type><transaction_id>2</transaction_id><parameter name=\"insert_graph\" encoding=\"RDF-M3\"><triple_list><triple><subject type=\"uri\">lamp</subject><predicate>state</predicate><object type=\"literal\">on</object></triple></triple_list></parameter><parameter name=\"confirm\">TRUE</parameter></SSAP_message>";

const JOINED: &str =
    "<SSAP_message><message_type>CONFIRM</message_type><transaction_type>JOIN</transaction_type><transaction_id>1</transaction_id><node_id>k</node_id><space_id>X</space_id><parameter name=\"status\">m3:Success</parameter></SSAP_message>";

const INSERTED: &str =
    "<SSAP_message><message_type>CONFIRM</message_type><transaction_type>INSERT</transaction_type><transaction_id>2</transaction_id><node_id>k</node_id><space_id>X</space_id><parameter name=\"status\">m3:Success</parameter></SSAP_message>";

const DENIED: &str =
    "<SSAP_message><message_type>CONFIRM</message_type><transaction_type>INSERT</transaction_type><transaction_id>2</transaction_id><node_id>k</node_id><space_id>X</space_id><parameter name=\"status\">m3:SIB.Error.AccessDenied</parameter></SSAP_message>";

// A graph of one triple, whose object is a literal.
const A_ONE: &str =
    "<parameter name=\"insert_graph\" encoding=\"RDF-M3\"><triple_list><triple><subject type=\"uri\">a</subject><predicate>p</predicate><object type=\"literal\">1</object></triple></triple_list></parameter>";

// The same, whose object is any.
const A_ANY: &str =
    "<parameter name=\"insert_graph\" encoding=\"RDF-M3\"><triple_list><triple><subject type=\"uri\">a</subject><predicate>p</predicate><object type=\"uri\">sib:any</object></triple></triple_list></parameter>";

// The same, whose subject is a blank node.
const A_NODE: &str =
    "<parameter name=\"insert_graph\" encoding=\"RDF-M3\"><triple_list><triple><subject type=\"bnode\">a</subject><predicate>p</predicate><object type=\"literal\">1</object></triple></triple_list></parameter>";

// The graph twice.
const A_TWICE: &str =
    "<parameter name=\"insert_graph\" encoding=\"RDF-M3\"><triple_list><triple><subject type=\"uri\">a</subject><predicate>p</predicate><object type=\"literal\">1</object></triple></triple_list></parameter><parameter name=\"insert_graph\" encoding=\"RDF-M3\"><triple_list><triple><subject type=\"uri\">a</subject><predicate>p</predicate><object type=\"literal\">1</object></triple></triple_list></parameter>";

// The graph, and no confirm of success is wanted.
const A_SILENT: &str =
    "<parameter name=\"insert_graph\" encoding=\"RDF-M3\"><triple_list><triple><subject type=\"uri\">a</subject><predicate>p</predicate><object type=\"literal\">1</object></triple></triple_list></parameter><parameter name=\"confirm\">FALSE</parameter>";

// How a run over memory is made: the second word, the most bytes a read gives, and which read, write and flush fail. A flush
// counts as a write.
#[derive(Clone, Copy)]
struct Trial<'a> {
    space: &'a str,
    piece: usize,
    failing_read: usize,
    failing_write: usize,
}

const PLAIN: Trial<'static> = Trial {
    space: "X",
    piece: 4096,
    failing_read: 0,
    failing_write: 0,
};

// What a run ended with, and what it wrote.
#[derive(Drop)]
struct Ended {
    status: u8,
    written: Vec<u8>,
}

fn one_call(alloc: Global, call: usize) -> Result<Calls, Fail> {
    let mut calls = Calls::new(alloc);
    if call > 0 {
        calls.push(call)?;
    }
    Ok(calls)
}

fn counted<R: Threads + Sync, L: Ledger>(
    alloc: Global,
    rt: &R,
    words: &[String],
    source: &mut MemSource,
    sink: &mut MemSink,
    blank: Blank,
) -> u8
    requires name { blank.name ≡ L.name }
    requires parts { blank.parts ≡ L.parts }
    requires some { 0 < L.parts }
{
    let mut steps = Steps::<L>::new(blank);
    sib_run(alloc, rt, words, source, sink, &mut steps)
}

fn words(alloc: Global, space: &str) -> Result<Vec<String>, Fail> {
    let mut words = Vec::new(alloc);
    words.push(String::from_str(alloc, "replay")?)?;
    words.push(String::from_str(alloc, space)?)?;
    Ok(words)
}

fn ran<R: Threads + Sync>(
    alloc: Global,
    rt: &R,
    script: &[u8],
    trial: Trial<'_>,
) -> Result<Ended, Fail> {
    let words = words(alloc, trial.space)?;
    let reads = one_call(alloc, trial.failing_read)?;
    let writes = one_call(alloc, trial.failing_write)?;
    let bytes = Bytes::from_slice(alloc, script)?;
    let mut source = MemSource::new(bytes, trial.piece.max(1), reads);
    let mut sink = MemSink::new(alloc, 4096, writes)?;
    let status = counted::<R, Brand>(alloc, rt, &words, &mut source, &mut sink, Blank::new(1));
    let written = Vec::from_slice(alloc, sink.bytes())?;
    Ok(Ended { status, written })
}

// These texts, one behind the other.
fn together(alloc: Global, parts: &[&str]) -> Result<String, Fail> {
    let mut all = String::new(alloc);
    for part in parts {
        all.push_str(part)?;
    }
    Ok(all)
}

fn check<R: Threads + Sync + Abort>(
    alloc: Global,
    rt: &R,
    script: &[u8],
    trial: Trial<'_>,
    status: u8,
    output: &str,
) -> Result<(), Fail> {
    let Ended {
        status: ended,
        written,
    } = ran(alloc, rt, script, trial)?;
    assert_eq!(rt; ended, status, "the status beside {output}");
    assert!(rt;
        written.as_slice() == output.as_bytes(),
        "the output {output}"
    );
    Ok(())
}

// A script, the status of its run, and what is written.
#[derive(Clone, Copy)]
struct Case<'a> {
    script: &'a [&'a str],
    status: u8,
    output: &'a [&'a str],
}

fn check_all<R: Threads + Sync + Abort>(
    alloc: Global,
    rt: &R,
    cases: &[Case<'_>],
) -> Result<(), Fail> {
    for case in cases {
        let script = together(alloc, case.script)?;
        let output = together(alloc, case.output)?;
        check(alloc, rt, script.as_bytes(), PLAIN, case.status, &output)?;
    }
    Ok(())
}

#[test]
fn scripts_with_what_they_write(rt: HostRuntime) -> Result<(), Fail> {
    let alloc = rt.alloc();
    let cases = [
        Case {
            script: &[""],
            status: 0,
            output: &["= 0 0 0\n"],
        },
        Case {
            script: &["+\n>1 182\n", JOIN, "\n>1 385\n", INSERT, "\n"],
            status: 0,
            output: &["<1 229\n", JOINED, "\n<1 231\n", INSERTED, "\n= 1 1 0\n"],
        },
        Case {
            script: &["+\n>1 385\n", INSERT, "\n"],
            status: 0,
            output: &["<1 246\n", DENIED, "\n= 0 0 0\n"],
        },
        Case {
            script: &[
                "+\n>1 105\n<SSAP_message><transaction_id>1</transaction_id><transaction_type>JOIN</transaction_type><transaction_id>\n",
            ],
            status: 0,
            output: &["!1 90 syntax\n= 0 0 0\n"],
        },
        Case {
            script: &[
                "+\n>1 64\n<SSAP_message><transaction_id>1</transaction_id><transaction_id>\n",
            ],
            status: 0,
            output: &["!1 61 syntax\n= 0 0 0\n"],
        },
        Case {
            script: &["+\n>1 187\n", JOIN, "<SSAP\n-1\n-1\n"],
            status: 0,
            output: &["<1 229\n", JOINED, "\n!1 182 cut\n!1 0 closed\n= 0 0 0\n"],
        },
        Case {
            script: &["+\n>1 229\n", JOINED, "\n>1 1\nx\n-1\n"],
            status: 0,
            output: &["!1 0 request\n!1 0 closed\n!1 0 closed\n= 0 0 0\n"],
        },
    ];
    check_all(alloc, &rt, &cases)
}

#[test]
fn scripts_that_are_none_and_links_that_close(rt: HostRuntime) -> Result<(), Fail> {
    let alloc = rt.alloc();
    for (script, status, output) in [
        ("+", 3, "? 1\n"),
        (">1 3\nabcX", 3, "? 8\n"),
        ("+\n>1 5\nab", 3, "? 9\n"),
        (">1 0\n\n", 0, "!1 0 closed\n= 0 0 0\n"),
        ("+\n+\n-1\n+\n-2\n-3\n-3\n", 0, "!3 0 closed\n= 0 0 0\n"),
        (
            "+\n>1 1\nx\n>1 1\nx\n+\n>2 1\nx\n",
            0,
            "!1 0 syntax\n!1 0 closed\n!2 0 syntax\n= 0 0 0\n",
        ),
    ] {
        check(alloc, &rt, script.as_bytes(), PLAIN, status, output)?;
    }
    Ok(())
}

// A script in which these bytes come on link 1, so many at a time.
fn delivered(alloc: Global, text: &[u8], piece: usize) -> Result<Vec<u8>, Fail> {
    let mut script = Vec::from_slice(alloc, b"+\n")?;
    for part in text.chunks(piece.max(1)) {
        let count = part.len();
        script.extend_from_slice(format!(in alloc; ">1 {count}\n")?.as_bytes())?;
        script.extend_from_slice(part)?;
        script.push(b'\n')?;
    }
    Ok(script)
}

#[test]
fn deliveries_and_reads_of_one_byte(rt: HostRuntime) -> Result<(), Fail> {
    let alloc = rt.alloc();
    let messages = together(alloc, &[JOIN_OTHERWISE, INSERT_OTHERWISE])?;
    let output = together(
        alloc,
        &["<1 229\n", JOINED, "\n<1 231\n", INSERTED, "\n= 1 1 0\n"],
    )?;
    let script = delivered(alloc, messages.as_bytes(), 1)?;
    check(alloc, &rt, &script, PLAIN, 0, &output)?;
    let trial = Trial {
        space: "X",
        piece: 1,
        failing_read: 0,
        failing_write: 0,
    };
    check(alloc, &rt, &script, trial, 0, &output)
}

// A JOIN whose credentials have so many letters.
fn long_join(alloc: Global, letters: usize) -> Result<Vec<u8>, Fail> {
    let heads = JOIN
        .as_bytes()
        .strip_suffix(b"</SSAP_message>")
        .unwrap_or(b"");
    let mut message = Vec::from_slice(alloc, heads)?;
    message.extend_from_slice(b"<parameter name=\"credentials\">")?;
    for _ in 0..letters {
        message.push(b'a')?;
    }
    message.extend_from_slice(b"</parameter></SSAP_message>")?;
    Ok(message)
}

#[test]
fn messages_as_long_as_may_be(rt: HostRuntime) -> Result<(), Fail> {
    let alloc = rt.alloc();
    let joined = together(alloc, &["<1 229\n", JOINED, "\n= 0 0 0\n"])?;
    let longest = long_join(alloc, 4_194_080)?;
    assert_eq!(rt; longest.len(), 4_194_304);
    let script = delivered(alloc, &longest, 65_536)?;
    check(alloc, &rt, &script, PLAIN, 0, &joined)?;
    let longer = long_join(alloc, 4_194_081)?;
    let script = delivered(alloc, &longer, 65_536)?;
    check(alloc, &rt, &script, PLAIN, 0, "!1 0 long\n= 0 0 0\n")
}

// A request of the node k, and the length and the status of its confirm, where one is sent.
#[derive(Clone, Copy)]
struct Exchange<'a> {
    link: u32,
    kind: &'a str,
    id: u32,
    space: &'a str,
    params: &'a str,
    length: u32,
    status: &'a str,
}

const fn asks(
    link: u32,
    kind: &'static str,
    id: u32,
    params: &'static str,
    length: u32,
    status: &'static str,
) -> Exchange<'static> {
    Exchange {
        link,
        kind,
        id,
        space: "X",
        params,
        length,
        status,
    }
}

// A message of the node k.
fn spelled(alloc: Global, kind: &str, exchange: &Exchange<'_>) -> Result<String, Fail> {
    let Exchange {
        link: _,
        kind: transaction,
        id,
        space,
        params: _,
        length: _,
        status: _,
    } = exchange;
    Ok(format!(in alloc;
        "<SSAP_message><message_type>{kind}</message_type><transaction_type>{transaction}</transaction_type><transaction_id>{id}</transaction_id><node_id>k</node_id><space_id>{space}</space_id>"
    )?)
}

// A request behind others, in a script.
fn asked(alloc: Global, script: &mut String, exchange: &Exchange<'_>) -> Result<(), Fail> {
    let heads = spelled(alloc, "REQUEST", exchange)?;
    let message = together(alloc, &[&heads, exchange.params, "</SSAP_message>"])?;
    let link = exchange.link;
    let count = message.len();
    script.push_str(&format!(in alloc; ">{link} {count}\n{message}\n")?)?;
    Ok(())
}

// Its confirm behind others, in an output.
fn confirmed(alloc: Global, output: &mut String, exchange: &Exchange<'_>) -> Result<(), Fail> {
    let heads = spelled(alloc, "CONFIRM", exchange)?;
    let link = exchange.link;
    let count = exchange.length;
    let status = exchange.status;
    output.push_str(&format!(in alloc;
        "<{link} {count}\n{heads}<parameter name=\"status\">m3:{status}</parameter></SSAP_message>\n"
    )?)?;
    Ok(())
}

// Runs a script that opens links and then asks these.
fn exchanged<R: Threads + Sync + Abort>(
    alloc: Global,
    rt: &R,
    opens: &str,
    exchanges: &[Exchange<'_>],
    last: &str,
) -> Result<(), Fail> {
    let mut script = String::from_str(alloc, opens)?;
    let mut output = String::new(alloc);
    for exchange in exchanges {
        asked(alloc, &mut script, exchange)?;
        if exchange.length > 0 {
            confirmed(alloc, &mut output, exchange)?;
        }
    }
    output.push_str(last)?;
    check(alloc, rt, script.as_bytes(), PLAIN, 0, &output)
}

#[test]
fn statuses_of_requests(rt: HostRuntime) -> Result<(), Fail> {
    let alloc = rt.alloc();
    let exchanges = [
        asks(1, "INSERT", 1, A_ONE, 246, "SIB.Error.AccessDenied"),
        asks(1, "JOIN", 2, "", 229, "Success"),
        asks(1, "JOIN", 3, "", 229, "Success"),
        asks(1, "INSERT", 4, A_ANY, 240, "KP.Error.Request"),
        asks(1, "INSERT", 5, "", 251, "KP.Error.Message.Incomplete"),
        asks(1, "INSERT", 6, A_TWICE, 247, "KP.Error.Message.Syntax"),
        asks(1, "INSERT", 7, A_NODE, 250, "SIB.Failure.NotImplemented"),
        Exchange {
            link: 1,
            kind: "LEAVE",
            id: 8,
            space: "Y",
            params: "",
            length: 239,
            status: "KP.Error.Request",
        },
    ];
    exchanged(alloc, &rt, "+\n", &exchanges, "= 0 0 0\n")
}

#[test]
fn nodes_that_speak_on_any_link_and_leave(rt: HostRuntime) -> Result<(), Fail> {
    let alloc = rt.alloc();
    let exchanges = [
        asks(2, "JOIN", 1, "", 229, "Success"),
        asks(1, "INSERT", 2, A_ONE, 231, "Success"),
        asks(3, "INSERT", 3, A_SILENT, 0, ""),
        asks(1, "LEAVE", 4, "", 230, "Success"),
        asks(2, "INSERT", 5, A_ONE, 246, "SIB.Error.AccessDenied"),
    ];
    exchanged(alloc, &rt, "+\n+\n+\n", &exchanges, "= 2 1 0\n")
}

#[test]
fn links_beside_256_and_words_that_are_no_form(rt: HostRuntime) -> Result<(), Fail> {
    let alloc = rt.alloc();
    let mut script = Vec::new(alloc);
    for _ in 0..257 {
        script.extend_from_slice(b"+\n")?;
    }
    check(alloc, &rt, &script, PLAIN, 0, "!0 256 full\n= 0 0 0\n")?;
    for space in ["", "\u{1}", "a\u{fffe}"] {
        let trial = Trial {
            space,
            piece: 1,
            failing_read: 1,
            failing_write: 1,
        };
        check(alloc, &rt, b"+\n", trial, 2, "")?;
    }
    Ok(())
}

// A run of this script, which a read or a write fails, gives so many bytes of the output, and has this status.
fn check_cut<R: Threads + Sync + Abort>(
    alloc: Global,
    rt: &R,
    trial: Trial<'_>,
    status: u8,
    length: usize,
) -> Result<(), Fail> {
    let script = together(alloc, &["+\n>1 182\n", JOIN, "\n"])?;
    let output = together(alloc, &["<1 229\n", JOINED, "\n= 0 0 0\n"])?;
    let Ended {
        status: ended,
        written,
    } = ran(alloc, rt, script.as_bytes(), trial)?;
    assert_eq!(rt; ended, status);
    assert!(rt; written.as_slice() == output.as_bytes().split_at(length.min(output.len())).0);
    Ok(())
}

// Three reads give the script, and the fourth finds its end. Before each read and at the end the sink is flushed: behind the
// third read come the header, the message and the line end of the confirm, and behind the fourth the last line.
#[test]
fn each_read_and_each_write_fails_in_turn(rt: HostRuntime) -> Result<(), Fail> {
    let alloc = rt.alloc();
    for (before, length) in [0, 0, 0, 0, 7, 236, 237, 237, 245].iter().enumerate() {
        let trial = Trial {
            space: "X",
            piece: 64,
            failing_read: 0,
            failing_write: before + 1,
        };
        check_cut(alloc, &rt, trial, 5, *length)?;
    }
    for (before, length) in [0, 0, 0, 237].iter().enumerate() {
        let trial = Trial {
            space: "X",
            piece: 64,
            failing_read: before + 1,
            failing_write: 0,
        };
        check_cut(alloc, &rt, trial, 4, *length)?;
    }
    let trial = Trial {
        space: "X",
        piece: 64,
        failing_read: 0,
        failing_write: 2,
    };
    check(alloc, &rt, b"x", trial, 5, "")
}

#[test]
fn laws_and_limits(rt: HostRuntime) -> Result<(), Fail> {
    outputs_are_told();
    outputs_exist();
    spaces_are_run();
    messages_are_written_as_sent();
    subscriptions_are_followed();
    assert_eq!(rt; INPUT_LIMIT, 1_099_511_627_776);
    Ok(())
}
