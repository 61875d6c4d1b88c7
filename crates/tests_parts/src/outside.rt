//! Sources and sinks: each once, and how each fails.

use m3_terms::Bytes;
use sib_io::{
    Calls, Failed, GatheredSink, MemSink, MemSource, PIECE_LIMIT, Sink, Source, StdSink, StdSource,
    SureSink, SureSource,
};
use std::alloc::Global;
use std::io;
use std::io::{ErrorKind, Read, Write};
use std::test::Fail;

/// A reader of `ab` whose first call is interrupted.
#[derive(Drop)]
struct Jumpy {
    calls: u32,
}

impl Read for Jumpy {
    fn read(&mut self, into: &mut [u8]) -> io::Result<usize> {
        self.calls = self.calls.saturating_add(1);
        if self.calls == 1 {
            return Err(io::Error::from(ErrorKind::Interrupted));
        }
        b"ab".as_slice().read(into)
    }
}

/// A writer that counts its calls. It takes at most so many bytes a call, and fails from some call on; its first call is
/// interrupted.
#[derive(Drop)]
struct Slow {
    taken: Vec<u8>,
    most: usize,
    failing: u32,
    calls: u32,
}

impl Slow {
    fn new(alloc: Global, most: usize, failing: u32) -> Slow {
        Slow {
            taken: Vec::new(alloc),
            most,
            failing,
            calls: 0,
        }
    }
}

impl Write for Slow {
    fn write(&mut self, bytes: &[u8]) -> io::Result<usize> {
        self.calls = self.calls.saturating_add(1);
        if self.calls == 1 {
            return Err(io::Error::from(ErrorKind::Interrupted));
        }
        if self.calls >= self.failing {
            return Err(io::Error::from(ErrorKind::BrokenPipe));
        }
        let (front, _) = bytes.split_at(bytes.len().min(self.most));
        self.taken.extend_from_slice(front)?;
        Ok(front.len())
    }

    fn flush(&mut self) -> io::Result<()> {
        Ok(())
    }
}

/// The calls with this number alone.
fn one_call(alloc: Global, number: usize) -> Result<Calls, Fail> {
    let mut calls = Calls::new(alloc);
    calls.push(number)?;
    Ok(calls)
}

/// What the reads of a source answer, into three bytes, one after the other.
fn reads_are<S: Source>(source: &mut S, wanted: &[Result<usize, Failed>]) -> bool {
    let mut into = [0u8; 3];
    for answer in wanted {
        if source.read(&mut into) != *answer {
            return false;
        }
    }
    true
}

#[test]
fn sources_give_their_bytes(rt: HostRuntime) -> Result<(), Fail> {
    let alloc = rt.alloc();
    let real = &mut StdSource::new(b"hello".as_slice());
    assert!(rt; reads_are(real, &[Ok(3), Ok(2), Ok(0)]));
    assert!(rt; reads_are(&mut StdSource::new(Jumpy { calls: 0 }), &[Ok(2)]));
    let sure = &mut SureSource::new(Bytes::from_slice(alloc, b"abcd")?);
    assert!(rt; reads_are(sure, &[Ok(3), Ok(1), Ok(0)]));
    let failing = one_call(alloc, 2)?;
    assert_eq!(rt;
        (failing.len(), failing.is_empty(), failing.get(0)),
        (1, false, Some(&2))
    );
    let held = &mut MemSource::new(Bytes::from_slice(alloc, b"abcde")?, 2, failing);
    assert!(rt; reads_are(held, &[Ok(2), Err(Failed), Ok(2), Ok(1), Ok(0)]));
    Ok(())
}

#[test]
fn a_source_reads_its_bytes_in_order(rt: HostRuntime) {
    let mut into = [0u8; 3];
    let mut real = StdSource::new(b"hello".as_slice());
    assert_eq!(rt; real.read(&mut into), Ok(3));
    assert_eq!(rt; into, *b"hel");
}

#[test]
fn a_sink_in_memory_takes_exactly_what_fits(rt: HostRuntime) -> Result<(), Fail> {
    let alloc = rt.alloc();
    let mut sink = MemSink::new(alloc, 5, one_call(alloc, 2)?)?;
    assert_eq!(rt; sink.write_all(b"abc"), Ok(()));
    assert_eq!(rt; sink.flush(), Err(Failed));
    assert_eq!(rt; sink.flush(), Ok(()));
    assert_eq!(rt; sink.write_all(b"def"), Err(Failed));
    assert!(rt; sink.bytes() == b"abcde".as_slice());
    let mut full = MemSink::new(alloc, 3, Calls::new(alloc))?;
    assert_eq!(rt; full.write_all(b"abc"), Ok(()));
    assert_eq!(rt; full.write_all(b"d"), Err(Failed));
    let mut sure = SureSink::new();
    assert_eq!(rt; sure.write_all(b"abc"), Ok(()));
    assert_eq!(rt; sure.flush(), Ok(()));
    Ok(())
}

#[test]
fn a_real_write_is_tried_again(rt: HostRuntime) {
    let alloc = rt.alloc();
    let mut sink = StdSink::new(Slow::new(alloc, 2, 4));
    assert_eq!(rt; sink.write_all(b"abcd"), Ok(()));
    assert_eq!(rt; sink.flush(), Ok(()));
    assert_eq!(rt; sink.write_all(b"e"), Err(Failed));
}

/// Writes so many kilobytes to a sink, one after the other, and answers how many writes were granted.
fn write_kilobytes<S: Sink>(sink: &mut S, kilobytes: u32) -> u32 {
    let kilobyte = [b'a'; 1024];
    let mut granted = 0u32;
    for _ in 0..kilobytes {
        if sink.write_all(&kilobyte).is_ok() {
            granted = granted.saturating_add(1);
        }
    }
    granted
}

#[test]
fn small_writes_are_gathered(rt: HostRuntime) -> Result<(), Fail> {
    let alloc = rt.alloc();
    let large = vec![in alloc; b'b'; PIECE_LIMIT + 1]?;
    let mut sink = GatheredSink::new(alloc, Slow::new(alloc, usize::MAX, u32::MAX))?;
    assert_eq!(rt; write_kilobytes(&mut sink, 100), 100);
    assert_eq!(rt; sink.write_all(&large), Ok(()));
    assert_eq!(rt; write_kilobytes(&mut sink, 1), 1);
    assert_eq!(rt; sink.flush(), Ok(()));
    let writer = sink.writer();
    assert_eq!(rt; writer.taken.len(), 101 * 1024 + PIECE_LIMIT + 1);
    assert_eq!(rt;
        (writer.taken.get(102_399), writer.taken.get(102_400)),
        (Some(&b'a'), Some(&b'b'))
    );
    assert_eq!(rt; writer.calls, 5);
    Ok(())
}

#[test]
fn a_gathered_sink_keeps_what_its_writer_refused(rt: HostRuntime) -> Result<(), Fail> {
    let alloc = rt.alloc();
    let mut sink = GatheredSink::new(alloc, Slow::new(alloc, 1000, 3))?;
    assert_eq!(rt; write_kilobytes(&mut sink, 64), 64);
    assert_eq!(rt; sink.write_all(b"b"), Err(Failed));
    assert_eq!(rt; sink.flush(), Err(Failed));
    assert_eq!(rt; sink.writer().taken.len(), 1000);
    assert_eq!(rt; sink.write_all(b"b"), Ok(()));
    Ok(())
}
