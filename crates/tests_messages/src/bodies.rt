use crate::spelled::{envelope, repeated, spelling};
use answer_bodies::Answer;
use m3_terms::Bytes;
use ssap_items::{Body, Params};
use std::alloc::Global;
use std::test::Fail;

/// What stands in a message before and behind its one parameter.
const BEFORE: &str =
    "<SSAP_message><message_type>CONFIRM</message_type><transaction_type>QUERY</transaction_type><transaction_id>1</transaction_id><node_id>k</node_id><space_id>X</space_id><parameter name=\"results\">";

const BEHIND: &str = "</parameter></SSAP_message>";

/// Bodies, and those of the answers that they carry: in order, and with the cells of a row in the order of columns.
const BODIES: [(&str, &str); 3] = [
    (
        "<triple_list><triple><subject type=\"uri\">b</subject><predicate>p</predicate><object type=\"literal\">x</object></triple><triple><subject type=\"uri\">a</subject><predicate>p</predicate><object type=\"literal\"></object></triple><triple><subject type=\"uri\">a</subject><predicate>p</predicate><object type=\"uri\">x</object></triple></triple_list>",
        "<triple_list><triple><subject type=\"uri\">a</subject><predicate>p</predicate><object type=\"uri\">x</object></triple><triple><subject type=\"uri\">a</subject><predicate>p</predicate><object type=\"literal\"></object></triple><triple><subject type=\"uri\">b</subject><predicate>p</predicate><object type=\"literal\">x</object></triple></triple_list>",
    ),
    (
        "<sparql xmlns=\"http://www.w3.org/2005/sparql-results#\"><head><variable name=\"x\"/><variable name=\"y\"/></head><results><result><binding name=\"y\"><literal>L</literal></binding><binding name=\"x\"><uri>b</uri></binding></result><result><binding name=\"x\"><uri>b</uri></binding></result></results></sparql>",
        "<sparql xmlns=\"http://www.w3.org/2005/sparql-results#\"><head><variable name=\"x\"/><variable name=\"y\"/></head><results><result><binding name=\"x\"><uri>b</uri></binding></result><result><binding name=\"x\"><uri>b</uri></binding><binding name=\"y\"><literal>L</literal></binding></result></results></sparql>",
    ),
    ("<triple_list></triple_list>", "<triple_list></triple_list>"),
];

/// Bodies that carry no answer: a text; a blank node, an empty uri, and a doubled triple; a doubled column, a column that
/// a row names twice, an unknown column, and a doubled row.
const OTHERS: [&str; 8] = [
    "x",
    "<triple_list><triple><subject type=\"bnode\">a</subject><predicate>p</predicate><object type=\"uri\">x</object></triple></triple_list>",
    "<triple_list><triple><subject>a</subject><predicate></predicate><object type=\"uri\">x</object></triple></triple_list>",
    "<triple_list><triple><subject>a</subject><predicate>p</predicate><object type=\"uri\">x</object></triple><triple><subject>a</subject><predicate>p</predicate><object type=\"uri\">x</object></triple></triple_list>",
    "<sparql><head><variable name=\"x\"/><variable name=\"x\"/></head><results></results></sparql>",
    "<sparql><head><variable name=\"x\"/></head><results><result><binding name=\"x\"><uri>a</uri></binding><binding name=\"x\"><uri>b</uri></binding></result></results></sparql>",
    "<sparql><head><variable name=\"x\"/></head><results><result><binding name=\"z\"><uri>a</uri></binding></result></results></sparql>",
    "<sparql><head><variable name=\"x\"/></head><results><result/><result/></results></sparql>",
];

/// A triple of which the literal is still to come.
const LITERAL: &str =
    "<triple_list><triple><subject>a</subject><predicate>p</predicate><object type=\"literal\">";

const LITERAL_END: &str = "</object></triple></triple_list>";

/// A message whose one parameter has this content.
pub fn message(alloc: Global, content: &str) -> Result<Vec<u8>, Fail> {
    repeated(
        alloc,
        BEFORE.as_bytes(),
        content.as_bytes(),
        1,
        BEHIND.as_bytes(),
    )
}

/// The message with this body in place of that of its parameter.
pub fn with_body(alloc: Global, bytes: &[u8], body: Body) -> Result<Bytes, Fail> {
    let mut message = envelope(alloc, bytes)?;
    let mut params = message.params.into_vec();
    let param = params.first_mut().ok_or("no parameter")?;
    param.body = body;
    message.params = Params::from_vec(params);
    spelling(alloc, &message)
}

/// The same message with the answer that it carries, or nothing where it carries none.
fn answered(alloc: Global, bytes: &[u8]) -> Result<Bytes, Fail> {
    let message = envelope(alloc, bytes)?;
    let param = message.params.get(0).ok_or("no parameter")?;
    match Answer::of_body(alloc, &param.body)? {
        Some(answer) => with_body(alloc, bytes, answer.to_body(alloc)?),
        None => Ok(Bytes::new(alloc)),
    }
}

#[test]
fn answers_are_read_and_written(rt: HostRuntime) -> Result<(), Fail> {
    let alloc = rt.alloc();
    for (given, wanted) in BODIES.iter() {
        let answer = answered(alloc, &message(alloc, given)?)?;
        assert_eq!(rt; answer.as_slice(), message(alloc, wanted)?.as_slice());
    }
    for given in OTHERS.iter() {
        assert!(rt; answered(alloc, &message(alloc, given)?)?.is_empty());
    }
    Ok(())
}

// A literal has at most 4,096 bytes.
#[test]
fn a_long_literal_is_refused(rt: HostRuntime) -> Result<(), Fail> {
    let alloc = rt.alloc();
    for (count, is_read) in [(4096, true), (4097, false)] {
        let literal = repeated(
            alloc,
            LITERAL.as_bytes(),
            b"a",
            count,
            LITERAL_END.as_bytes(),
        )?;
        let message = repeated(alloc, BEFORE.as_bytes(), &literal, 1, BEHIND.as_bytes())?;
        assert_eq!(rt; !answered(alloc, &message)?.is_empty(), is_read);
    }
    Ok(())
}
