//! Connections of a listener of the system.
ghost use Rattle.std.specs.Prelude.{◌≡◌, None};

use crate::errors::{Trouble, trouble_of};
use crate::{Accept, Failed, GatheredSink, StdSource};
use std::alloc::Global;
use std::io::{Read, Write};
use std::net::{Shutdown, TcpListener, TcpStream};
use std::time::{Clock, Duration};
use std::{io, thread};

/// How long a write to a connection may wait.
const WRITE_SECONDS: u64 = 30;

/// How long a listener waits for memory or descriptors.
const SHORTAGE_MILLIS: u64 = 50;

/// The most reads of what is still queued at a connection that is closed.
const DRAIN_READS: usize = 256;

/// The writing half of a connection, which ends it when it is dropped: the socket is shut down in both directions, so that a
/// thread that still reads of it wakes up. What is already queued is then read and dropped, since closing a socket with
/// unread bytes resets the connection, and the peer may still be reading its last replies.
pub struct ClosingStream {
    stream: TcpStream,
}

impl ClosingStream {
    /// Ends the connection of this stream when it is dropped.
    pub fn new(stream: TcpStream) -> ClosingStream {
        ClosingStream { stream }
    }
}

impl Write for ClosingStream {
    fn write(&mut self, bytes: &[u8]) -> io::Result<usize> {
        self.stream.write(bytes)
    }

    fn flush(&mut self) -> io::Result<()> {
        self.stream.flush()
    }
}

impl Drop for ClosingStream {
    fn drop(self) {
        let ClosingStream { mut stream } = self;
        let _ = stream.shutdown(Shutdown::Both);
        drain(&mut stream);
    }
}

/// Reads and drops what is queued.
fn drain(stream: &mut TcpStream) {
    let mut buffer = [0u8; 4096];
    for _ in 0..DRAIN_READS {
        match stream.read(&mut buffer) {
            Ok(0) => return,
            Ok(_) => (),
            Err(_) => return,
        }
    }
}

/// The connections of a listener of the system. It waits until one comes. A connection that is lost before it is given is
/// passed over, and a shortage of memory or descriptors is waited out; neither is a fault.
#[derive(Drop)]
pub struct TcpAccept<R: Clock + Drop> {
    alloc: Global,
    listener: TcpListener,
    clock: R,
    faults: u64,
}

impl<R: Clock + Drop> TcpAccept<R> {
    /// The connections of this listener, on which no call has failed.
    pub fn new(alloc: Global, listener: TcpListener, clock: R) -> TcpAccept<R>
        ensures { result ≡ record { alloc = alloc; listener = listener; clock = clock; faults = 0 } }
    {
        TcpAccept {
            alloc,
            listener,
            clock,
            faults: 0,
        }
    }
}

impl<R: Clock + Drop> Accept for TcpAccept<R> {
    type Input = StdSource<TcpStream>;

    type Output = GatheredSink<ClosingStream>;

    ghost waiting = { λ _. None };

    ghost faults = { λ a. a.faults };

    fn next(
        &mut self,
    ) -> Result<Option<(StdSource<TcpStream>, GatheredSink<ClosingStream>)>, Failed> {
        if let Some((input, output)) = wait_for_one(self.alloc, &self.listener, &self.clock) {
            return Ok(Some((StdSource::new(input), output)));
        }
        self.faults = self.faults.saturating_add(1);
        Err(Failed)
    }
}

/// Waits for a connection, or answers `None` where the listener failed.
fn wait_for_one<R: Clock>(
    alloc: Global,
    listener: &TcpListener,
    clock: &R,
) -> Option<(TcpStream, GatheredSink<ClosingStream>)> {
    for _ in 0..u64::MAX {
        match accept_one(alloc, listener) {
            Ok(halves) => return Some(halves),
            Err(Trouble::Again) => (),
            Err(Trouble::Shortage) => thread::sleep(clock, Duration::from_millis(SHORTAGE_MILLIS)),
            Err(Trouble::Fault) => return None,
        }
    }
    None
}

/// Waits for a connection once, and makes its halves.
fn accept_one(
    alloc: Global,
    listener: &TcpListener,
) -> Result<(TcpStream, GatheredSink<ClosingStream>), Trouble> {
    match listener.accept() {
        Ok((stream, _)) => set_up(alloc, stream),
        Err(error) => Err(trouble_of(&error)),
    }
}

/// Sets a connection up, with memory for the bytes that are gathered for it.
fn set_up(
    alloc: Global,
    stream: TcpStream,
) -> Result<(TcpStream, GatheredSink<ClosingStream>), Trouble> {
    match halves(stream) {
        Ok((input, output)) => match GatheredSink::new(alloc, output) {
            Ok(sink) => Ok((input, sink)),
            Err(_) => Err(Trouble::Shortage),
        },
        Err(error) => Err(connection_trouble(&error)),
    }
}

/// What an error of a connection asks of its listener: never that it count a fault.
fn connection_trouble(error: &io::Error) -> Trouble {
    match trouble_of(error) {
        Trouble::Shortage => Trouble::Shortage,
        Trouble::Again => Trouble::Again,
        Trouble::Fault => Trouble::Again,
    }
}

/// Sets a connection up, and splits it.
fn halves(stream: TcpStream) -> io::Result<(TcpStream, ClosingStream)> {
    stream.set_nodelay(true)?;
    stream.set_write_timeout(Some(Duration::from_secs(WRITE_SECONDS)))?;
    let input = stream.try_clone()?;
    Ok((input, ClosingStream::new(stream)))
}
