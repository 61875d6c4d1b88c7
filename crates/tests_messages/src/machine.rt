use ssap_machine::{Progress, Stack, advance};
use std::test::Fail;

/// Bytes that begin messages, end one or fault, and how far they lead.
const CASES: [(&[u8], Progress); 16] = [
    (b"<SSAP_mess", Progress::Half { from: 0 }),
    (b"<SSAP_message><no", Progress::Half { from: 14 }),
    (
        b"<?xml version='1.0' encoding=\"utf-8\"?> <SSAP_message><",
        Progress::Half { from: 53 },
    ),
    (
        b"<SSAP_message><node_id>a\r\n&#13;]]>",
        Progress::Half { from: 34 },
    ),
    (
        b"<SSAP_message><node_id><![CDATA[a] ]]]>b</node_id >",
        Progress::Half { from: 51 },
    ),
    (
        b"<SSAP_message><node_id>\xC3\xA9\xE2\x82",
        Progress::Half { from: 25 },
    ),
    (
        b"<SSAP_message><parameter name=\"a\"> <sparql><head/><results/></sparql> </parameter>",
        Progress::Half { from: 82 },
    ),
    (
        b"<SSAP_message><message_type>REQUEST</message_type><transaction_type>INSERT</transaction_type><transaction_id>1</transaction_id><node_id>k</node_id><space_id>X</space_id><parameter encoding='RDF-M3' name='insert_graph'> <triple_list><triple><subject>s</subject><predicate type='URI'>p</predicate><object type='bnode'>&amp;o</object></triple></triple_list></parameter></SSAP_message > ",
        Progress::Whole { taken: 382 },
    ),
    (b" <SSAP_message>", Progress::Fault { place: 0 }),
    (b"<?xml version='1.0\"", Progress::Fault { place: 18 }),
    (
        b"<SSAP_message><transaction_id>1</transaction_id><transaction_type>JOIN</transaction_type><transaction_id>",
        Progress::Fault { place: 90 },
    ),
    (
        b"<SSAP_message></SSAP_message>",
        Progress::Fault { place: 15 },
    ),
    (
        b"<SSAP_message><node_id>&amq;",
        Progress::Fault { place: 26 },
    ),
    (
        b"<SSAP_message><node_id>\xEF\xBF\xBE",
        Progress::Fault { place: 25 },
    ),
    (
        b"<SSAP_message><parameter name='a' name",
        Progress::Fault { place: 34 },
    ),
    (
        b"<SSAP_message><parameter name=\"a\">x<sparql",
        Progress::Fault { place: 36 },
    ),
];

/// How far bytes lead that come one by one, each time from the lexeme that was left.
fn read_bytewise(bytes: &[u8]) -> Progress {
    let mut stack = Stack::message();
    let mut done = 0;
    for end in 0..bytes.len() {
        match advance(&mut stack, &bytes[done..end + 1]) {
            Progress::Half { from } => done += from,
            Progress::Whole { taken } => {
                return Progress::Whole {
                    taken: done + taken,
                };
            }
            Progress::Fault { place } => {
                return Progress::Fault {
                    place: done + place,
                };
            }
        }
    }
    Progress::Half { from: done }
}

#[test]
fn bytes_lead_so_far(rt: HostRuntime) -> Result<(), Fail> {
    for (bytes, wanted) in CASES.iter() {
        let mut stack = Stack::message();
        assert_eq!(rt; advance(&mut stack, bytes), *wanted);
        assert_eq!(rt; read_bytewise(bytes), *wanted);
    }
    Ok(())
}
