use m3_terms::Bytes;
use ssap_encode::to_bytes;
use ssap_read::read_envelope;
use std::alloc::Global;
use std::test::Fail;

/// Spellings of messages, and the canonical ones of what they say.
const SPELLINGS: [(&[u8], &[u8]); 3] = [
    (
        b"<SSAP_message><node_id>k</node_id><space_id>X</space_id><transaction_type>INSERT</transaction_type><message_type>REQUEST</message_type><transaction_id>2</transaction_id><parameter name=\"insert_graph\" encoding=\"RDF-M3\"><triple_list><triple><subject type=\"uri\">lamp</subject><predicate>state</predicate><object type=\"literal\">on</object></triple></triple_list></parameter><parameter name = \"confirm\">TRUE</parameter></SSAP_message>",
        b"<SSAP_message><message_type>REQUEST</message_type><transaction_type>INSERT</transaction_type><transaction_id>2</transaction_id><node_id>k</node_id><space_id>X</space_id><parameter name=\"insert_graph\" encoding=\"RDF-M3\"><triple_list><triple><subject type=\"uri\">lamp</subject><predicate>state</predicate><object type=\"literal\">on</object></triple></triple_list></parameter><parameter name=\"confirm\">TRUE</parameter></SSAP_message>",
    ),
    (
        b"<SSAP_message><message_type>INDICATION</message_type><transaction_type>SUBSCRIBE</transaction_type><transaction_id>3</transaction_id><node_id>k</node_id><space_id>X</space_id><parameter name=\"new_results\"> <sparql><head><variable name='s'> </variable><variable name=\"n\"/></head><results><result><binding name='s'><uri>lamp</uri></binding><binding name=\"n\"> <literal>L</literal></binding></result><result/></results></sparql></parameter></SSAP_message>",
        b"<SSAP_message><message_type>INDICATION</message_type><transaction_type>SUBSCRIBE</transaction_type><transaction_id>3</transaction_id><node_id>k</node_id><space_id>X</space_id><parameter name=\"new_results\"><sparql xmlns=\"http://www.w3.org/2005/sparql-results#\"><head><variable name=\"s\"/><variable name=\"n\"/></head><results><result><binding name=\"s\"><uri>lamp</uri></binding><binding name=\"n\"><literal>L</literal></binding></result><result></result></results></sparql></parameter></SSAP_message>",
    ),
    (
        b"<?xml version='1.0' encoding=\"utf-8\" ?>\n<SSAP_message > <node_id/><space_id>a&amp;b</space_id><transaction_type> JOIN </transaction_type ><message_type>CONFIRM</message_type><transaction_id><![CDATA[<1>]]></transaction_id><parameter encoding='e' name='n'/><parameter name='m'> <triple_list/> </parameter></SSAP_message>",
        b"<SSAP_message><message_type>CONFIRM</message_type><transaction_type>JOIN</transaction_type><transaction_id>&lt;1&gt;</transaction_id><node_id></node_id><space_id>a&amp;b</space_id><parameter name=\"n\" encoding=\"e\"></parameter><parameter name=\"m\"><triple_list></triple_list></parameter></SSAP_message>",
    ),
];

/// The front and the end of messages that lack a transaction id.
const FRONT: &[u8] =
    b"<SSAP_message><node_id>k</node_id><space_id>X</space_id><transaction_type>JOIN</transaction_type><message_type>REQUEST</message_type>";

const END: &[u8] = b"</SSAP_message>";

/// What stands between them: each makes no message, but for the first.
const BETWEEN: [&[u8]; 7] = [
    b"<transaction_id>1</transaction_id>",
    b"",
    b"<transaction_id>1</transaction_id><node_id>k</node_id>",
    b"<transaction_id>1</transaction_id><parameter name='a' name='b'/>",
    b"<transaction_id>1</transaction_id><parameter name='a'><triple_list><triple><subject>s</subject><predicate>p</predicate><object>o</object></triple></triple_list></parameter>",
    b"<transaction_id>1</transaction_id><parameter name='a'>text<triple_list/></parameter>",
    b"<transaction_id>1</transaction_id></SSAP_message> ",
];

/// The canonical spelling of what the bytes say, or nothing where they say nothing.
fn respelled(alloc: Global, bytes: &[u8]) -> Result<Bytes, Fail> {
    match &read_envelope(alloc, bytes)? {
        Some(envelope) => Ok(to_bytes(alloc, envelope)?),
        None => Ok(Bytes::new(alloc)),
    }
}

/// Whether these bytes are what a message lacks between the front and the end.
fn is_message_with(alloc: Global, between: &[u8]) -> Result<bool, Fail> {
    let mut bytes = Vec::from_slice(alloc, FRONT)?;
    bytes.extend_from_slice(between)?;
    bytes.extend_from_slice(END)?;
    Ok(read_envelope(alloc, &bytes)?.is_some())
}

#[test]
fn messages_are_read(rt: HostRuntime) -> Result<(), Fail> {
    for (bytes, canonical) in SPELLINGS.iter() {
        assert_eq!(rt; respelled(rt.alloc(), bytes)?.as_slice(), *canonical);
    }
    Ok(())
}

#[test]
fn other_bytes_are_no_messages(rt: HostRuntime) -> Result<(), Fail> {
    for (at, between) in BETWEEN.iter().enumerate() {
        assert_eq!(rt; is_message_with(rt.alloc(), between)?, at == 0);
    }
    Ok(())
}
