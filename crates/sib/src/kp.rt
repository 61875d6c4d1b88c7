//! `sib kp`: the client that talks with a broker over TCP.

use crate::{BAD_WORDS, NO_MEMORY, refusal};
use sib_app::kp_run;
use sib_io::{GatheredSink, StdSink, StdSource};
use std::io::{self, Print};
use std::net::{Net, TcpListener, TcpStream};

/// The status where the address could not be connected.
const NOT_CONNECTED: u8 = 16;

/// Connects to the address, which is the first of the words, and talks there as the words behind it say.
pub fn kp<R>(rt: &R, words: &[String]) -> u8
where
    R: Net<Listener = TcpListener, Stream = TcpStream> + AllocGlobal + Print,
{
    let Some((address, rest)) = words.split_first() else {
        return BAD_WORDS;
    };
    match TcpStream::connect(rt, address.as_str()) {
        Ok(stream) => talk(rt, rest, &stream),
        Err(fault) => refusal(fault.kind(), NOT_CONNECTED),
    }
}

// Talks over the stream. Each request leaves at once; a system that refuses this only sends it later.
fn talk<R: AllocGlobal + Print>(rt: &R, words: &[String], stream: &TcpStream) -> u8 {
    let _ = stream.set_nodelay(true);
    let Ok(mut out) = GatheredSink::new(rt.alloc(), io::writer(rt)) else {
        return NO_MEMORY;
    };
    let mut source = StdSource::new(stream);
    let mut sink = StdSink::new(stream);
    kp_run(rt.alloc(), words, &mut source, &mut sink, &mut out)
}
