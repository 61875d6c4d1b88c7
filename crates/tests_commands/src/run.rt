//! Runs of the commands over memory.

ghost use Rattle.std.specs.Prelude.{◌≡◌, ◌<◌};

use m3_terms::{Bytes, Steps};
use sib_app::sib_run;
use sib_io::{Calls, MemSink, MemSource};
use std::alloc::Global;
use std::marker::Brand;
use std::process::Abort;
use std::sync::ledger::{Blank, Ledger};
use std::test::Fail;
use std::thread::Threads;

/// How a run over memory is made: its words, the most bytes a read gives, the room of the sink, and which read and which write
/// fail. A flush counts as a write, and 0 is none.
#[derive(Clone, Copy)]
pub struct Trial<'a> {
    pub words: &'a [&'a str],
    pub piece: usize,
    pub room: usize,
    pub failing_read: usize,
    pub failing_write: usize,
}

/// A run of these words that nothing fails.
pub const fn plain<'a>(words: &'a [&'a str]) -> Trial<'a> {
    Trial {
        words,
        piece: 4096,
        room: 1 << 20,
        failing_read: 0,
        failing_write: 0,
    }
}

/// What a run ended with, and what it wrote.
#[derive(Drop)]
pub struct Ended {
    pub status: u8,
    pub written: Vec<u8>,
}

fn one_call(alloc: Global, call: usize) -> Result<Calls, Fail> {
    let mut calls = Calls::new(alloc);
    if call > 0 {
        calls.push(call)?;
    }
    Ok(calls)
}

fn counted<R: Threads + Sync, L: Ledger>(
    alloc: Global,
    rt: &R,
    words: &[String],
    source: &mut MemSource,
    sink: &mut MemSink,
    blank: Blank,
) -> u8
    requires name { blank.name ≡ L.name }
    requires parts { blank.parts ≡ L.parts }
    requires some { 0 < L.parts }
{
    let mut steps = Steps::<L>::new(blank);
    sib_run(alloc, rt, words, source, sink, &mut steps)
}

fn strings(alloc: Global, texts: &[&str]) -> Result<Vec<String>, Fail> {
    let mut words = Vec::new(alloc);
    for text in texts {
        words.push(String::from_str(alloc, text)?)?;
    }
    Ok(words)
}

/// Runs a command on an input.
pub fn ran<R: Threads + Sync>(
    alloc: Global,
    rt: &R,
    trial: Trial<'_>,
    input: &[u8],
) -> Result<Ended, Fail> {
    let words = strings(alloc, trial.words)?;
    let reads = one_call(alloc, trial.failing_read)?;
    let writes = one_call(alloc, trial.failing_write)?;
    let bytes = Bytes::from_slice(alloc, input)?;
    let mut source = MemSource::new(bytes, trial.piece.max(1), reads);
    let mut sink = MemSink::new(alloc, trial.room, writes)?;
    let status = counted::<R, Brand>(alloc, rt, &words, &mut source, &mut sink, Blank::new(1));
    let written = Vec::from_slice(alloc, sink.bytes())?;
    Ok(Ended { status, written })
}

/// A run of a command on an input ends with this status, and writes this.
pub fn check<R: Threads + Sync + Abort>(
    alloc: Global,
    rt: &R,
    trial: Trial<'_>,
    input: &[u8],
    status: u8,
    output: &str,
) -> Result<(), Fail> {
    let Ended {
        status: ended,
        written,
    } = ran(alloc, rt, trial, input)?;
    assert_eq!(rt; ended, status, "the status beside {output}");
    assert!(rt;
        written.as_slice() == output.as_bytes(),
        "the output {output}"
    );
    Ok(())
}

/// These texts, one behind the other.
pub fn together(alloc: Global, parts: &[&str]) -> Result<String, Fail> {
    let mut all = String::new(alloc);
    for part in parts {
        all.push_str(part)?;
    }
    Ok(all)
}
