//! `sib serve`: the broker on the network.

use crate::{BAD_WORDS, NO_MEMORY, refusal};
use m3_terms::Text;
use sib_app::{ServeEnd, Served, is_identifier, sib_serve};
use sib_io::{TcpAccept, ThreadSpawner};
use std::io::Eprint;
use std::net::{Net, TcpListener, TcpStream};
use std::random::RandomSource;
use std::sync::Wait;
use std::thread::Threads;
use std::time::Clock;

/// The status where the address could not be bound.
const NOT_BOUND: u8 = 16;

/// Listens at an address, and shares a space among those who connect there. The words are the name of the space and the
/// address. Once it listens it says where on standard error.
pub fn serve<R>(rt: &R, words: &[String]) -> u8
where
    R: Net<Listener = TcpListener, Stream = TcpStream>
        + Threads
        + Wait
        + Clock
        + RandomSource
        + Sync
        + Copy
        + Send
        + Drop
        + 'static
        + AllocGlobal
        + Eprint,
{
    let [space, address] = words else {
        return BAD_WORDS;
    };
    if !is_identifier(space.as_bytes()) {
        return BAD_WORDS;
    }
    let Ok(space) = Text::read(rt.alloc(), space.as_bytes()) else {
        return NO_MEMORY;
    };
    match TcpListener::bind(rt, address.as_str()) {
        Ok(listener) => listen(rt, space, listener),
        Err(fault) => refusal(fault.kind(), NOT_BOUND),
    }
}

// Serves those who connect to a listener.
fn listen<R>(rt: &R, space: Text, listener: TcpListener) -> u8
where
    R: Threads
        + Wait
        + Clock
        + RandomSource
        + Sync
        + Copy
        + Send
        + Drop
        + 'static
        + AllocGlobal
        + Eprint,
{
    if let Ok(address) = listener.local_addr() {
        let _ = eprintln!(rt; "listening on {address}");
    }
    let Ok(mut spawner) = ThreadSpawner::new(rt.alloc(), *rt) else {
        return NO_MEMORY;
    };
    let mut accept = TcpAccept::new(rt.alloc(), listener, *rt);
    let Served { end, seat } = sib_serve(rt.alloc(), rt, space, &mut accept, &mut spawner);
    drop(seat);
    status_of(end)
}

// The status of a server that ended.
fn status_of(end: ServeEnd) -> u8 {
    match end {
        ServeEnd::Ended => 0,
        ServeEnd::AcceptFault => 4,
        ServeEnd::NoMemory => NO_MEMORY,
        ServeEnd::Worn { .. } => 7,
        ServeEnd::NoThread => 11,
    }
}
