//! Counts the messages of standard input: `ok N` for a stream of N, and status 1 where it is none. It does nothing with
//! them, so that `bench/decode.sh` measures the decoder alone.
#![tactic(auto)]

ghost use Rattle.std.specs.Prelude.{◌≤◌, ◌<◌, length};

use sib_io::{Source, StdSource};
use ssap_decode::Decoder;
use std::alloc::Global;
use std::process::ExitCode;

/// The most bytes that are read at once.
const BUFFER: usize = 65_536;

/// The most reads, which no input comes to.
const READS: u64 = 1 << 40;

fn main(rt: HostRuntime) -> ExitCode {
    let mut source = StdSource::new(rt.reader());
    let Some(messages) = messages_of(rt.alloc(), &mut source) else {
        return ExitCode::from(1);
    };
    match println!(rt; "ok {messages}") {
        Ok(()) => ExitCode::SUCCESS,
        Err(_) => ExitCode::from(1),
    }
}

/// How many messages the source has, or `None` where its bytes are no stream or a call failed.
fn messages_of<S: Source>(alloc: Global, source: &mut S) -> Option<u64> {
    let mut decoder = Decoder::new(alloc);
    let mut buffer = [0u8; BUFFER];
    let mut messages = 0u64;
    for _ in 0..READS {
        let count = source.read(&mut buffer).ok()?;
        if count == 0 {
            decoder.end().ok()?;
            return Some(messages);
        }
        messages = messages.saturating_add(take(alloc, &mut decoder, &buffer[..count])?);
    }
    None
}

/// How many messages end within these bytes, or `None` where a stop stands there or a call failed.
fn take(alloc: Global, decoder: &mut Decoder, bytes: &[u8]) -> Option<u64>
    requires { length bytes.now ≤ BUFFER }
{
    let mut rest = bytes;
    let mut messages = 0u64;
    for _ in 0..=bytes.len() {
        if rest.is_empty() {
            return Some(messages);
        }
        if decoder.taken() > u64::MAX / 4 {
            return None;
        }
        let count = decoder.feed(alloc, rest).ok()?;
        rest = rest.get(count..)?;
        if decoder.next().is_some() {
            messages = messages.saturating_add(1);
        }
    }
    None
}
