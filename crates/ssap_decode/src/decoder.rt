ghost use Rattle.std.specs.Prelude.{◌≡◌, ◌≢◌, ◌↔◌, ◌+◌, ◌-◌, ◌^◌, ◌<◌, ◌≤◌, ℕ, List, [], take, length, max, IfOk, IfErr, IsTrue, None, Some};
ghost use Rattle.ssap_decode.specs.Decoding.{fresh, Feeds, Refuses, Ends};
ghost use Rattle.ssap_decode.specs.Standing.{Stands, FeedStands, NextStands, EndStands};
ghost use Rattle.ssap_decode.specs.Unfinished.{AreSpaces, stop_of};

use crate::envelope::{envelope_of, whole_envelope};
use crate::next_byte::fault_at;
use crate::walk::{Halt, extend, walk};
use crate::{Framed, MESSAGE_LIMIT, Stop};
use ssap_machine::Stack;
use std::alloc::Global;
use std::marker::Model;

/// A stop that stands for good.
#[derive(Clone, Copy)]
pub(crate) enum Fault {
    Syntax,
    TooLong,
    Cut,
}

/// Reads a stream of messages in any pieces, one message at a time.
#[derive(Drop)]
pub struct Decoder {
    message: Vec<u8>,
    stack: Stack,
    read: usize,
    taken: u64,
    waiting: Option<Framed>,
    stopped: Option<Fault>,
}

impl Model for Decoder {
    ghost use Rattle.std.specs.Prelude.{length};
    ghost use Rattle.ssap_decode.specs.Decoding.{Decoding};
    ghost use Rattle.ssap_decode.specs.Unfinished.{IsKept, stopped_of};

    ghost Value = { Decoding };

    ghost view = { λ d. record { unread = d.message.items; waiting = d.waiting; taken = d.taken; stopped = stopped_of d.taken (length d.message.items) d.stopped } };

    ghost invariant = { λ d. IsKept d.message.items d.stack d.read d.taken };
}

/// How many bytes of white space stand at the start: all of it where no byte of a message was read, else none.
fn spaces_before(message: &[u8], bytes: &[u8]) -> usize
    ensures { AreSpaces message.now bytes.now result }
{
    if !message.is_empty() {
        return 0;
    }
    for (at, byte) in bytes.iter().enumerate() {
        if !matches!(*byte, b' ' | b'\t' | b'\r' | b'\n') {
            return at;
        }
    }
    bytes.len()
}

/// As many of the bytes as a message of this length has room for, and at least one.
fn piece_of(length: usize, bytes: &[u8]) -> &[u8]
    requires { length ≤ MESSAGE_LIMIT }
    ensures { result.now ≡ take (max (MESSAGE_LIMIT - length) 1) bytes.now }
{
    let room = (MESSAGE_LIMIT - length).max(1);
    &bytes[..room.min(bytes.len())]
}

/// Whether none of some bytes was taken.
fn none_taken(count: usize, bytes: &[u8]) -> bool
    ensures { IsTrue result ↔ ((count ≡ 0) × (bytes.now ≢ [])) }
{
    count == 0 && !bytes.is_empty()
}

impl Decoder {
    /// A decoder that has taken nothing. It takes no memory.
    pub fn new(alloc: Global) -> Decoder
        ensures fresh { result ≡ fresh }
        ensures stands { Stands result [] 0 }
    {
        Decoder {
            message: Vec::new(alloc),
            stack: Stack::message(),
            read: 0,
            taken: 0,
            waiting: None,
            stopped: None,
        }
    }

    /// Takes bytes up to the end of the piece, the end of a message or the offset of a stop, and answers how many.
    ///
    /// While a message waits it takes none. A stop is answered when it stands at the next byte, and then for good.
    /// `NoMemory` is answered only where none stands there, with no byte taken, and leaves the decoder as it was.
    pub fn feed(&mut self, alloc: Global, bytes: &[u8]) -> Result<usize, Stop>
        requires { self.old.taken + length bytes.now < 2 ^ 63 }
        ensures ok { IfOk result (λ count. Feeds self.old bytes.now count self.new) }
        ensures refused { IfErr result (Refuses self.old bytes.now self.new) }
        ensures stands { FeedStands self.old bytes.now result self.new }
    {
        self.take(alloc, bytes)
    }

    /// Takes bytes, as `feed` does.
    fn take(&mut self, alloc: Global, bytes: &[u8]) -> Result<usize, Stop>
        requires { self.old.taken + length bytes.now < 2 ^ 63 }
        ensures ok { IfOk result (λ count. Feeds self.old bytes.now count self.new) }
        ensures refused { IfErr result (Refuses self.old bytes.now self.new) }
    {
        if self.waiting.is_some() {
            return Ok(0);
        }
        if let Some(fault) = self.stopped {
            return Err(self.stop(fault));
        }
        self.read(alloc, bytes)
    }

    /// Takes bytes where no message waits and no stop was met.
    fn read(&mut self, alloc: Global, bytes: &[u8]) -> Result<usize, Stop>
        requires room { self.old.taken + length bytes.now < 2 ^ 63 }
        requires idle { self.old.waiting ≡ None }
        requires sound { self.old.stopped ≡ None }
        ensures ok { IfOk result (λ count. Feeds self.old bytes.now count self.new) }
        ensures refused { IfErr result (Refuses self.old bytes.now self.new) }
    {
        if !self.message.is_empty() {
            return self.read_on(alloc, bytes);
        }
        self.read_first(alloc, bytes)
    }

    /// Takes bytes, as `read` does, where none of a message is kept: a message that is whole in them is not copied.
    fn read_first(&mut self, alloc: Global, bytes: &[u8]) -> Result<usize, Stop>
        requires room { self.old.taken + length bytes.now < 2 ^ 63 }
        requires idle { self.old.waiting ≡ None }
        requires sound { self.old.stopped ≡ None }
        requires empty { self.old.unread ≡ [] }
        ensures ok { IfOk result (λ count. Feeds self.old bytes.now count self.new) }
        ensures refused { IfErr result (Refuses self.old bytes.now self.new) }
    {
        let spaces = spaces_before(&self.message, bytes);
        let piece = piece_of(self.message.len(), &bytes[spaces..]);
        let walked = walk(&self.stack, piece);
        let part = &piece[..walked.reach];
        let count = spaces + walked.reach;
        if let Halt::Whole = walked.halt {
            // The machine stays where a message begins.
            let envelope = envelope_of(alloc, part)?;
            self.taken += count as u64;
            self.waiting = Some(Framed {
                start: self.taken - walked.reach as u64,
                end: self.taken,
                envelope,
            });
            return Ok(count);
        }
        if none_taken(count, bytes) {
            return Err(self.stop(Fault::Syntax));
        }
        self.message.extend_from_slice(part)?;
        self.stack = walked.stack;
        self.read = walked.count;
        self.taken += count as u64;
        Ok(count)
    }

    /// Takes bytes, as `read` does, behind those that are kept of a message.
    fn read_on(&mut self, alloc: Global, bytes: &[u8]) -> Result<usize, Stop>
        requires room { self.old.taken + length bytes.now < 2 ^ 63 }
        requires idle { self.old.waiting ≡ None }
        requires sound { self.old.stopped ≡ None }
        requires begun { 0 < length self.old.unread }
        ensures ok { IfOk result (λ count. Feeds self.old bytes.now count self.new) }
        ensures refused { IfErr result (Refuses self.old bytes.now self.new) }
    {
        let spaces = spaces_before(&self.message, bytes);
        let old = self.message.len();
        let piece = piece_of(old, &bytes[spaces..]);
        let Ok(walked) = extend(&mut self.message, &self.stack, self.read, piece) else {
            return Err(self.refuse(bytes));
        };
        let length = self.message.len();
        if length > MESSAGE_LIMIT {
            self.message.truncate(old);
            return Err(self.stop(Fault::TooLong));
        }
        let count = spaces + (length - old);
        if let Halt::Whole = walked.halt {
            let envelope = whole_envelope(alloc, &mut self.message, old)?;
            self.stack = Stack::message();
            self.read = 0;
            self.taken += count as u64;
            self.waiting = Some(Framed {
                start: self.taken - length as u64,
                end: self.taken,
                envelope,
            });
            return Ok(count);
        }
        self.stack = walked.stack;
        self.read += walked.count;
        self.taken += count as u64;
        if none_taken(count, bytes) {
            return Err(self.stop(Fault::Syntax));
        }
        Ok(count)
    }

    /// What a call answers that is out of memory: the stop that stands at the next byte of the unfinished message, or
    /// `NoMemory`.
    fn refuse(&mut self, bytes: &[u8]) -> Stop
        requires idle { self.old.waiting ≡ None }
        requires sound { self.old.stopped ≡ None }
        requires begun { 0 < length self.old.unread }
        ensures { Refuses self.old bytes.now self.new result }
    {
        let Some(byte) = bytes.first() else {
            return Stop::NoMemory;
        };
        match fault_at(&self.message, &self.stack, self.read, *byte) {
            Some(fault) => self.stop(fault),
            None => Stop::NoMemory,
        }
    }

    /// Stops for good, and answers why.
    fn stop(&mut self, fault: Fault) -> Stop
        ensures fault { result ≡ stop_of self.old.taken (length self.old.unread) fault }
        ensures stopped { self.new ≡ record self.old { stopped = Some result } }
    {
        self.stopped = Some(fault);
        let start = self.taken - self.message.len() as u64;
        match fault {
            Fault::Syntax => Stop::Syntax { place: self.taken },
            Fault::TooLong => Stop::TooLong { start },
            Fault::Cut => Stop::Cut { start },
        }
    }

    /// The message that waits, or `None` exactly where none does.
    pub fn next(&mut self) -> Option<Framed>
        ensures message { result ≡ self.old.waiting }
        ensures taken { self.new ≡ record self.old { waiting = None } }
        ensures stands { NextStands self.old result self.new }
    {
        self.waiting.take()
    }

    /// Says that no byte follows. What was fed is a stream exactly where it answers `Ok`. It never answers `NoMemory`.
    pub fn end(&mut self) -> Result<(), Stop>
        ensures ends { Ends self.old result self.new }
        ensures stands { EndStands self.old result self.new }
    {
        self.finish()
    }

    /// Says that no byte follows, as `end` does.
    fn finish(&mut self) -> Result<(), Stop>
        ensures { Ends self.old result self.new }
    {
        if let Some(fault) = self.stopped {
            return Err(self.stop(fault));
        }
        if self.message.is_empty() {
            return Ok(());
        }
        Err(self.stop(Fault::Cut))
    }

    /// How many bytes were taken.
    pub fn taken(&self) -> u64
        ensures count { result ≡ self.now.taken }
        ensures stands { (read : List ℕ) (given : ℕ) → Stands self.now read given → result ≡ length read }
    {
        self.taken
    }
}
