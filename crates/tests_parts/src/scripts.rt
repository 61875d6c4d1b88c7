//! Scripts are read in pieces of several lengths, and faults are found at their offsets. Entries are written as they are read.

use m3_terms::Bytes;
use sib_io::{Calls, Failed, MemSink};
use sib_script::{Entry, ScriptFault, ScriptReader, write_entry};
use std::alloc::Global;
use std::test::Fail;

// A script, how many of its bytes spell whole entries, and the offset of its fault, if it has one.
type Row = (&'static [u8], usize, Option<u64>);

const ROWS: &[Row] = &[
    (b"", 0, None),
    (b"+", 0, Some(1)),
    (b"+\n+\n", 4, None),
    (b"+\n>1 3\na\nb\n>1 0\n\n", 17, None),
    (b"-1\n-4294967295\n", 15, None),
    (b">4294967295 1\nx\n", 16, None),
    (b"-4294967296\n", 0, Some(10)),
    (b"+\n>42949672950 1\nx\n", 2, Some(13)),
    (b"-0\n", 0, Some(1)),
    (b">01 1\nx\n", 0, Some(1)),
    (b"+\n>1 01\na\n", 2, Some(6)),
    (b">1 65536\n", 0, Some(9)),
    (b">1 65537\n", 0, Some(7)),
    (b"-\n", 0, Some(1)),
    (b"-7", 0, Some(2)),
    (b">7\n", 0, Some(2)),
    (b">7  1\nx\n", 0, Some(3)),
    (b"+\n>1 3\nabcX", 2, Some(10)),
    (b"-7\nx", 3, Some(3)),
];

// Writes an entry down again.
fn note(alloc: Global, log: &mut Vec<u8>, entry: Entry) -> Result<(), Fail> {
    match entry {
        Entry::NewLink => log.extend_from_slice(b"+\n")?,
        Entry::Bytes { link, bytes } => {
            let header = format!(in alloc; ">{link} {}\n", bytes.len())?;
            log.extend_from_slice(header.as_bytes())?;
            log.extend_from_slice(bytes.as_slice())?;
            log.push(b'\n')?;
        }
        Entry::End { link } => log.extend_from_slice(format!(in alloc; "-{link}\n")?.as_bytes())?,
    }
    Ok(())
}

// The offset of a fault. Where memory ran out it is one that no script of the table has.
fn offset(fault: ScriptFault) -> Option<u64> {
    match fault {
        ScriptFault::BadScript { place } => Some(place),
        ScriptFault::NoMemory => Some(u64::MAX),
    }
}

// Feeds a piece, notes its entries, and answers the offset of a fault, if it meets one.
fn feed_all(
    alloc: Global,
    reader: &mut ScriptReader,
    piece: &[u8],
    log: &mut Vec<u8>,
) -> Result<Option<u64>, Fail> {
    let mut rest = piece;
    for _ in 0..4 {
        if reader.taken() > 1000 || rest.len() > 1000 {
            return Err("too long a script".into());
        }
        match reader.feed(alloc, rest) {
            Ok(count) => rest = &rest[count..],
            Err(fault) => return Ok(offset(fault)),
        }
        if let Some(entry) = reader.next() {
            note(alloc, log, entry)?;
        }
    }
    Ok(None)
}

// Reads a script in pieces of so many bytes: its entries as they are written, and the offset of its fault.
fn read(alloc: Global, script: &[u8], cut: usize) -> Result<(Vec<u8>, Option<u64>), Fail> {
    let mut reader = ScriptReader::new(alloc);
    let mut log = Vec::new(alloc);
    if cut == 0 {
        return Err("pieces of no bytes".into());
    }
    for piece in script.chunks(cut) {
        let fault = feed_all(alloc, &mut reader, piece, &mut log)?;
        if fault.is_some() {
            return Ok((log, fault));
        }
    }
    match reader.end() {
        Ok(()) => Ok((log, None)),
        Err(fault) => Ok((log, offset(fault))),
    }
}

#[test]
fn scripts_in_pieces(rt: HostRuntime) -> Result<(), Fail> {
    for row in ROWS {
        for cut in [1, 3, 100] {
            let (log, fault) = read(rt.alloc(), row.0, cut)?;
            assert!(rt; row.0.starts_with(log.as_slice()));
            assert_eq!(rt; (log.len(), fault), (row.1, row.2), "cut {cut}");
        }
    }
    Ok(())
}

#[test]
fn entries_are_written(rt: HostRuntime) -> Result<(), Fail> {
    let alloc = rt.alloc();
    let bytes = Bytes::from_slice(alloc, b"a\nb")?;
    let delivery = Entry::Bytes { link: 12, bytes };
    let end = Entry::End { link: 4294967295 };
    let mut sink = MemSink::new(alloc, 100, Calls::new(alloc))?;
    assert_eq!(rt; write_entry(&Entry::NewLink, &mut sink), Ok(()));
    assert_eq!(rt; write_entry(&delivery, &mut sink), Ok(()));
    assert_eq!(rt; write_entry(&end, &mut sink), Ok(()));
    assert!(rt; sink.bytes() == b"+\n>12 3\na\nb\n-4294967295\n".as_slice());
    Ok(())
}

#[test]
fn a_full_sink_has_a_prefix_of_an_entry(rt: HostRuntime) -> Result<(), Fail> {
    let alloc = rt.alloc();
    let bytes = Bytes::from_slice(alloc, b"abc")?;
    let mut sink = MemSink::new(alloc, 8, Calls::new(alloc))?;
    let delivery = Entry::Bytes { link: 1, bytes };
    assert_eq!(rt; write_entry(&delivery, &mut sink), Err(Failed));
    assert!(rt; sink.bytes() == b">1 3\nabc".as_slice());
    Ok(())
}
