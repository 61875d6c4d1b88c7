use m3_terms::Bytes;
use sib_io::{Calls, MemSink, MemSource};
use std::alloc::Global;
use std::process::Abort;
use std::test::Fail;
use stream_report::{
    Ending, Report, endings_tell_the_input, failures_have_causes, faultless_reports_are_complete,
    inputs_have_one_report, stops_are_placed, streams_are_counted, write_report,
};

// A JOIN in another order, with credentials and white space in a tag.
const JOIN: &str =
    "<SSAP_message><node_id>k</node_id><space_id>X</space_id><transaction_type>JOIN</transaction_type><message_type>REQUEST</message_type><transaction_id>1</transaction_id><parameter name = \"credentials\">XYZZY</parameter></SSAP_message>";

// The same as it is shown.
const JOIN_SHOWN: &str =
    "<SSAP_message><message_type>REQUEST</message_type><transaction_type>JOIN</transaction_type><transaction_id>1</transaction_id><node_id>k</node_id><space_id>X</space_id><parameter name=\"credentials\">XYZZY</parameter></SSAP_message>\n";

// An INSERT in another order, with a wish for a confirm.
const INSERT: &str =
    "<SSAP_message><node_id>k</node_id><space_id>X</space_id><transaction_type>INSERT</transaction_type><message_type>REQUEST</message_type><transaction_id>2</transaction_id><parameter name=\"insert_graph\" encoding=\"RDF-M3\"><triple_list><triple><subject type=\"uri\">lamp</subject><predicate>state</predicate><object type=\"literal\">on</object></triple></triple_list></parameter><parameter name=\"confirm\">TRUE</parameter></SSAP_message>";

// A QUERY in another order.
const QUERY: &str =
    "<SSAP_message><node_id>k</node_id><space_id>X</space_id><transaction_type>QUERY</transaction_type><message_type>REQUEST</message_type><transaction_id>3</transaction_id><parameter name=\"type\">RDF-M3</parameter><parameter name=\"query\"><triple_list><triple><subject type=\"uri\">lamp</subject><predicate>state</predicate><object type=\"uri\">sib:any</object></triple></triple_list></parameter></SSAP_message>";

// An input, with how its report ends and what it writes.
#[derive(Clone, Copy)]
struct Case<'a> {
    report: Report,
    input: &'a [&'a str],
    ending: Ending,
    output: &'a [&'a str],
}

// The calls of the outside that fail, counted from 1, or 0 for none. A flush counts as a write.
#[derive(Clone, Copy)]
struct Failing {
    read: usize,
    write: usize,
}

const NONE: Failing = Failing { read: 0, write: 0 };

fn one_call(alloc: Global, call: usize) -> Result<Calls, Fail> {
    let mut calls = Calls::new(alloc);
    if call > 0 {
        calls.push(call)?;
    }
    Ok(calls)
}

// These texts, one behind the other.
fn together(alloc: Global, parts: &[&str]) -> Result<String, Fail> {
    let mut all = String::new(alloc);
    for part in parts {
        all.push_str(part)?;
    }
    Ok(all)
}

// How the report on an input ends that comes in pieces of so many bytes, and what it writes.
fn reported(
    alloc: Global,
    report: Report,
    input: &[u8],
    piece: usize,
    failing: Failing,
) -> Result<(Ending, Vec<u8>), Fail> {
    let bytes = Bytes::from_slice(alloc, input)?;
    let mut source = MemSource::new(bytes, piece.max(1), one_call(alloc, failing.read)?);
    let mut sink = MemSink::new(alloc, 4096, one_call(alloc, failing.write)?)?;
    let ending = write_report(alloc, report, &mut source, &mut sink);
    Ok((ending, Vec::from_slice(alloc, sink.bytes())?))
}

fn check<R: Abort>(
    rt: &R,
    alloc: Global,
    case: &Case<'_>,
    piece: usize,
    failing: Failing,
) -> Result<(), Fail> {
    let input = together(alloc, case.input)?;
    let output = together(alloc, case.output)?;
    let (ending, written) = reported(alloc, case.report, input.as_bytes(), piece, failing)?;
    assert_eq!(rt; ending, case.ending, "the ending beside {output}");
    assert!(rt;
        written.as_slice() == output.as_bytes(),
        "the output {output}"
    );
    Ok(())
}

#[test]
fn inputs_with_their_reports(rt: HostRuntime) -> Result<(), Fail> {
    let cases = [
        Case {
            report: Report::Check,
            input: &[],
            ending: Ending::Done,
            output: &["ok 0\n"],
        },
        Case {
            report: Report::Show,
            input: &[" \r\n"],
            ending: Ending::Done,
            output: &[],
        },
        Case {
            report: Report::Check,
            input: &[JOIN, INSERT, QUERY],
            ending: Ending::Done,
            output: &["ok 3\n"],
        },
        Case {
            report: Report::Show,
            input: &[JOIN, "\n", JOIN],
            ending: Ending::Done,
            output: &[JOIN_SHOWN, JOIN_SHOWN],
        },
        Case {
            report: Report::Check,
            input: &["<SSAP_message><x"],
            ending: Ending::Stopped,
            output: &["! 15 syntax\n"],
        },
        Case {
            report: Report::Show,
            input: &[JOIN, "x", JOIN],
            ending: Ending::Stopped,
            output: &[JOIN_SHOWN, "! 231 syntax\n"],
        },
        Case {
            report: Report::Show,
            input: &[JOIN, " <SSAP"],
            ending: Ending::Stopped,
            output: &[JOIN_SHOWN, "! 232 cut\n"],
        },
    ];
    for case in cases.iter() {
        for piece in [1, 100, 100_000] {
            check(&rt, rt.alloc(), case, piece, NONE)?;
        }
    }
    Ok(())
}

// The calls of the sink are a flush, a message, a flush before the second read, and one at the end.
#[test]
fn a_call_of_the_outside_fails(rt: HostRuntime) -> Result<(), Fail> {
    let cases: [(Failing, Ending, &[&str]); 6] = [
        (Failing { read: 1, write: 0 }, Ending::ReadFault, &[]),
        (
            Failing { read: 2, write: 0 },
            Ending::ReadFault,
            &[JOIN_SHOWN],
        ),
        (Failing { read: 0, write: 1 }, Ending::WriteFault, &[]),
        (Failing { read: 0, write: 2 }, Ending::WriteFault, &[]),
        (
            Failing { read: 0, write: 3 },
            Ending::WriteFault,
            &[JOIN_SHOWN],
        ),
        (
            Failing { read: 0, write: 4 },
            Ending::WriteFault,
            &[JOIN_SHOWN],
        ),
    ];
    for (failing, ending, output) in cases.iter() {
        let case = Case {
            report: Report::Show,
            input: &[JOIN],
            ending: *ending,
            output: *output,
        };
        check(&rt, rt.alloc(), &case, 100_000, *failing)?;
    }
    Ok(())
}

#[test]
fn a_message_of_one_byte_more_is_long(rt: HostRuntime) -> Result<(), Fail> {
    let mut input = Vec::from_slice(rt.alloc(), b"<SSAP_message")?;
    input.resize(4_194_304, b' ')?;
    let (ending, written) = reported(rt.alloc(), Report::Check, &input, 100_000, NONE)?;
    assert_eq!(rt; ending, Ending::Stopped);
    assert_eq!(rt; written.as_slice(), b"! 0 cut\n".as_slice());
    input.push(b' ')?;
    let (ending, written) = reported(rt.alloc(), Report::Check, &input, 100_000, NONE)?;
    assert_eq!(rt; ending, Ending::Stopped);
    assert_eq!(rt; written.as_slice(), b"! 0 long\n".as_slice());
    Ok(())
}

#[test]
fn endings_have_statuses(rt: HostRuntime) -> Result<(), Fail> {
    let statuses = [
        (Ending::Done, 0),
        (Ending::Stopped, 1),
        (Ending::ReadFault, 4),
        (Ending::WriteFault, 5),
        (Ending::NoMemory, 6),
        (Ending::Spent, 7),
    ];
    for (ending, status) in statuses.iter() {
        assert_eq!(rt; ending.status(), *status);
    }
    Ok(())
}

#[test]
fn laws_are_functions(_rt: HostRuntime) -> Result<(), Fail> {
    inputs_have_one_report();
    streams_are_counted();
    stops_are_placed();
    endings_tell_the_input();
    faultless_reports_are_complete();
    failures_have_causes();
    Ok(())
}
