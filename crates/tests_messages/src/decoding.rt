use ssap_decode::{Decoder, MESSAGE_LIMIT, Stop};
use std::alloc::Global;
use std::process::Abort;
use std::test::Fail;

/// Two messages with white space around them.
const TWO: &[u8] =
    b" \n<SSAP_message><message_type>REQUEST</message_type><transaction_type>JOIN</transaction_type><transaction_id>1</transaction_id><node_id>k</node_id><space_id>X</space_id></SSAP_message>\r\n<?xml version='1.0'?><SSAP_message><message_type>REQUEST</message_type><transaction_type>JOIN</transaction_type><transaction_id>1</transaction_id><node_id>k</node_id><space_id>&#13;<![CDATA[]]]></space_id></SSAP_message>";

/// Bytes, the offsets at which their messages begin and end, and how the stream ends.
const STREAMS: [(&[u8], &[u64], Option<Stop>); 9] = [
    (b"", &[], None),
    (b" \t\r\n", &[], None),
    (TWO, &[2, 184, 186, 406], None),
    (b"  <?xml ", &[], Some(Stop::Cut { start: 2 })),
    (b"x", &[], Some(Stop::Syntax { place: 0 })),
    (b"  <SSAP_messagf>", &[], Some(Stop::Syntax { place: 14 })),
    (
        b"<SSAP_message><transaction_id>1</transaction_id><transaction_type>JOIN</transaction_type><transaction_id>",
        &[],
        Some(Stop::Syntax { place: 90 }),
    ),
    (
        b"<SSAP_message><transaction_id>1</transaction_id><transaction_id>",
        &[],
        Some(Stop::Syntax { place: 61 }),
    ),
    (
        b"<SSAP_message><node_id>k</node_id><node_id>",
        &[],
        Some(Stop::Syntax { place: 35 }),
    ),
];

/// What stands behind the white space in a long message.
const REST: &[u8] =
    b"><message_type>REQUEST</message_type><transaction_type>JOIN</transaction_type><transaction_id>1</transaction_id><node_id>k</node_id><space_id>X</space_id></SSAP_message>";

/// Feeds a piece, notes where its messages begin and end, and answers the stop that it met.
fn feed_all(
    rt: &impl Abort,
    alloc: Global,
    decoder: &mut Decoder,
    piece: &[u8],
    log: &mut Vec<u64>,
) -> Result<Option<Stop>, Fail> {
    let mut rest = piece;
    for _ in 0..4 {
        assert!(rt; decoder.taken() < 100_000_000 && rest.len() < 100_000_000);
        match decoder.feed(alloc, rest) {
            Ok(count) => {
                assert!(rt; count <= rest.len());
                rest = &rest[count..];
            }
            Err(stop) => return Ok(Some(stop)),
        }
        if let Some(framed) = decoder.next() {
            log.push(framed.start)?;
            log.push(framed.end)?;
        }
    }
    assert!(rt; rest.is_empty());
    Ok(None)
}

/// The offsets of the messages of bytes that come in pieces of so many, and how the stream ends.
fn outcome(
    rt: &impl Abort,
    alloc: Global,
    bytes: &[u8],
    cut: usize,
) -> Result<(Vec<u64>, Option<Stop>), Fail> {
    let mut decoder = Decoder::new(alloc);
    let mut log = Vec::new(alloc);
    assert!(rt; cut > 0);
    for piece in bytes.chunks(cut) {
        let met = feed_all(rt, alloc, &mut decoder, piece, &mut log)?;
        if met.is_some() {
            assert_eq!(rt; decoder.end().err(), met);
            return Ok((log, met));
        }
    }
    Ok((log, decoder.end().err()))
}

/// A message of so many bytes, most of them white space.
fn message_of(alloc: Global, length: usize) -> Result<Vec<u8>, Fail> {
    let mut bytes = Vec::from_slice(alloc, b"<SSAP_message")?;
    bytes.resize(length.saturating_sub(REST.len()), b' ')?;
    bytes.extend_from_slice(REST)?;
    Ok(bytes)
}

#[test]
fn streams_in_any_pieces(rt: HostRuntime) -> Result<(), Fail> {
    for (bytes, places, wanted) in STREAMS.iter() {
        for cut in [1, 7, 1000] {
            let (log, stop) = outcome(&rt, rt.alloc(), bytes, cut)?;
            assert_eq!(rt; log.as_slice(), *places);
            assert_eq!(rt; stop, *wanted);
        }
    }
    Ok(())
}

#[test]
fn a_message_of_one_byte_more_is_too_long(rt: HostRuntime) -> Result<(), Fail> {
    let longest = message_of(rt.alloc(), MESSAGE_LIMIT)?;
    let (log, stop) = outcome(&rt, rt.alloc(), &longest, 65_536)?;
    assert_eq!(rt; log.as_slice(), [0, 4_194_304].as_slice());
    assert_eq!(rt; stop, None);
    let longer = message_of(rt.alloc(), MESSAGE_LIMIT + 1)?;
    let (log, stop) = outcome(&rt, rt.alloc(), &longer, 65_536)?;
    assert!(rt; log.is_empty());
    assert_eq!(rt; stop, Some(Stop::TooLong { start: 0 }));
    Ok(())
}
