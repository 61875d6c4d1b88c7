//! `sib`, the broker's command: reads its words, makes the real sources and sinks, and ends with the status of the call.
#![tactic(auto)]

mod kp;
mod serve;

ghost use Rattle.std.specs.Prelude.{◌≡◌, ◌<◌};

use m3_terms::Steps;
use sib_app::sib_run;
use sib_io::{GatheredSink, Sink, Source, StdSource};
use std::alloc::Global;
use std::env;
use std::io::{self, Eprint, ErrorKind, Input, Print};
use std::marker::Brand;
use std::net::{Net, TcpListener, TcpStream};
use std::process::ExitCode;
use std::random::RandomSource;
use std::rt::Env;
use std::sync::Wait;
use std::sync::ledger::{Blank, Ledger};
use std::thread::Threads;
use std::time::Clock;

/// The status where the words are no form.
const BAD_WORDS: u8 = 2;

/// The status out of memory.
const NO_MEMORY: u8 = 6;

/// What is told where the words are no form.
const FORMS: &str = "the words are none of these forms:
  sib replay SPACE
  sib show
  sib check
  sib make N
  sib trial N
  sib serve SPACE ADDRESS
  sib kp ADDRESS insert SPACE NODE SUBJECT PREDICATE KIND OBJECT
  sib kp ADDRESS query SPACE NODE TEXT
  sib kp ADDRESS watch SPACE NODE TEXT N
KIND is uri or literal; N is a number; a script or a stream of messages comes on standard input";

fn main(rt: HostRuntime) -> ExitCode {
    let status = match words(&rt) {
        Ok(words) => run(&rt, &words),
        Err(fault) => refusal(fault.kind(), BAD_WORDS),
    };
    if status == BAD_WORDS {
        let _ = eprintln!(rt; "{FORMS}");
    }
    ExitCode::from(status)
}

// The words of the command line, without the program's name.
fn words(rt: &(impl Env + AllocGlobal)) -> io::Result<Vec<String>> {
    let mut words = env::args(rt)?.collect::<Vec<String>>(rt.alloc())?;
    if !words.is_empty() {
        words.remove(0);
    }
    Ok(words)
}

// The status of a call of the system that failed: out of memory, or else this one.
fn refusal(kind: ErrorKind, otherwise: u8) -> u8 {
    if kind == ErrorKind::OutOfMemory {
        NO_MEMORY
    } else {
        otherwise
    }
}

// Runs the client where the first word is `kp`, the server where it is `serve`, and else the broker over standard input.
fn run<R>(rt: &R, words: &[String]) -> u8
where
    R: Net<Listener = TcpListener, Stream = TcpStream>
        + Threads
        + Wait
        + Clock
        + RandomSource
        + Sync
        + Copy
        + Send
        + Drop
        + 'static
        + AllocGlobal
        + Input
        + Print
        + Eprint,
{
    match words.split_first() {
        Some((first, rest)) if first.as_str() == "kp" => kp::kp(rt, rest),
        Some((first, rest)) if first.as_str() == "serve" => serve::serve(rt, rest),
        _ => broker(rt, words),
    }
}

// Runs the broker over standard input and output.
fn broker<R: Threads + Sync + AllocGlobal + Input + Print>(rt: &R, words: &[String]) -> u8 {
    let mut source = StdSource::new(rt.reader());
    let Ok(mut sink) = GatheredSink::new(rt.alloc(), io::writer(rt)) else {
        return NO_MEMORY;
    };
    counted::<_, _, _, Brand>(rt.alloc(), rt, words, &mut source, &mut sink, Blank::new(1))
}

// Runs the command with a counter of its own, which counts for nobody.
fn counted<R: Threads + Sync, S: Source, K: Sink, L: Ledger>(
    alloc: Global,
    rt: &R,
    words: &[String],
    source: &mut S,
    sink: &mut K,
    blank: Blank,
) -> u8
    requires name { blank.name ≡ L.name }
    requires parts { blank.parts ≡ L.parts }
    requires some { 0 < L.parts }
{
    let mut steps = Steps::<L>::new(blank);
    sib_run(alloc, rt, words, source, sink, &mut steps)
}
