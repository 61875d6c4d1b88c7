use crate::spelled::{envelope, repeated, spelling};
use sib_io::{Calls, MemSink};
use ssap_encode::{length, write};
use ssap_items::Envelope;
use std::alloc::Global;
use std::test::Fail;

/// Messages in their canonical spelling: the confirm of a join, that of a query, an indication with tables of which one
/// row leaves a column unbound, and a message with each reference.
const CANONICAL: [&[u8]; 4] = [
    b"<SSAP_message><message_type>CONFIRM</message_type><transaction_type>JOIN</transaction_type><transaction_id>1</transaction_id><node_id>k</node_id><space_id>X</space_id><parameter name=\"status\">m3:Success</parameter></SSAP_message>",
    b"<SSAP_message><message_type>CONFIRM</message_type><transaction_type>QUERY</transaction_type><transaction_id>3</transaction_id><node_id>k</node_id><space_id>X</space_id><parameter name=\"status\">m3:Success</parameter><parameter name=\"results\"><triple_list><triple><subject type=\"uri\">lamp</subject><predicate>state</predicate><object type=\"literal\">on</object></triple></triple_list></parameter></SSAP_message>",
    b"<SSAP_message><message_type>INDICATION</message_type><transaction_type>SUBSCRIBE</transaction_type><transaction_id>3</transaction_id><node_id>k</node_id><space_id>X</space_id><parameter name=\"subscription_id\">1</parameter><parameter name=\"ind_sequence\">1</parameter><parameter name=\"new_results\"><sparql xmlns=\"http://www.w3.org/2005/sparql-results#\"><head><variable name=\"s\"/><variable name=\"n\"/></head><results><result><binding name=\"s\"><uri>lamp</uri></binding><binding name=\"n\"><literal>L</literal></binding></result></results></sparql></parameter><parameter name=\"obsolete_results\"><sparql xmlns=\"http://www.w3.org/2005/sparql-results#\"><head><variable name=\"s\"/><variable name=\"n\"/></head><results><result><binding name=\"s\"><uri>lamp</uri></binding></result></results></sparql></parameter></SSAP_message>",
    b"<SSAP_message><message_type>REQUEST</message_type><transaction_type>LEAVE</transaction_type><transaction_id>&amp;</transaction_id><node_id>k</node_id><space_id>X</space_id><parameter name=\"a&quot;b\" encoding=\"e\">x &amp; y &lt; z &gt; &#9;&#10;&#13;'</parameter></SSAP_message>",
];

/// What stands before and behind the many letters of a long message.
const BEFORE: &[u8] =
    b"<SSAP_message><message_type>REQUEST</message_type><transaction_type>JOIN</transaction_type><transaction_id>1</transaction_id><node_id>k</node_id><space_id>X</space_id><parameter name=\"first\">";

const BEHIND: &[u8] = b"&gt;</parameter></SSAP_message>";

/// What a sink with this room is given of a message where its call of this number fails.
fn given(alloc: Global, envelope: &Envelope, room: usize, call: usize) -> Result<Vec<u8>, Fail> {
    let mut failing = Calls::new(alloc);
    failing.push(call)?;
    let mut sink = MemSink::new(alloc, room, failing)?;
    let result = write(envelope, &mut sink);
    let mut given = Vec::from_slice(alloc, sink.bytes())?;
    if result.is_err() {
        given.push(b'!')?;
    }
    Ok(given)
}

#[test]
fn messages_are_written_canonically(rt: HostRuntime) -> Result<(), Fail> {
    let alloc = rt.alloc();
    for bytes in CANONICAL.iter() {
        let envelope = envelope(alloc, bytes)?;
        assert_eq!(rt; spelling(alloc, &envelope)?.as_slice(), *bytes);
        assert_eq!(rt; length(&envelope), bytes.len() as u64);
        assert_eq!(rt; given(alloc, &envelope, 1000, 9)?.as_slice(), *bytes);
        assert_eq!(rt; given(alloc, &envelope, 100, 9)?.last(), Some(&b'!'));
    }
    Ok(())
}

// Where the first call fails, or the second, and so on. The fourth is never made.
#[test]
fn a_sink_is_given_few_large_pieces(rt: HostRuntime) -> Result<(), Fail> {
    let alloc = rt.alloc();
    let bytes = repeated(alloc, BEFORE, b"a", 9000, BEHIND)?;
    let envelope = envelope(alloc, &bytes)?;
    let long = BEFORE.len() + 9000;
    for (call, count) in [(1, 1), (2, 4097), (3, long + 1), (4, bytes.len())] {
        assert_eq!(rt; given(alloc, &envelope, 10_000, call)?.len(), count);
    }
    Ok(())
}
