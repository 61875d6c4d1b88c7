//! The bytes of a link, as a pump of input takes them.
ghost use Rattle.std.specs.Prelude.{◌≡◌, ℕ, ◌+◌, ◌<◌, ◌≤◌, ◌^◌, List, ◌++◌, length, IfOk};
ghost use Rattle.space_turn.specs.Sights.{IsSameSeat};
ghost use Rattle.ssap_decode.specs.Decoding.{fresh};
ghost use Rattle.ssap_decode.specs.Standing.{placed_of};
ghost use Rattle.space_shared.specs.Exchanges.{SeatSight, HasOpened};
ghost use Rattle.space_shared.specs.Listening.{Listens, IsListening, Feeds, FeedsSome, Finishes, Delivers, is_refused, end_at};

use crate::calls::deliver;
use crate::{InEnd, Space};
use m3_terms::Steps;
use session_core::Core;
use space_turn::TurnSeat;
use ssap_decode::{Decoder, Framed, Stop};
use ssap_shape::{Arrived, shape};
use std::alloc::Global;
use std::sync::Wait;
use std::sync::ledger::Ledger;
use std::thread::Threads;

/// What reads the bytes of a link.
#[derive(Drop)]
pub(crate) struct Intake {
    link: u32,
    decoder: Decoder,
}

impl Intake {
    /// Nothing was read. It takes no memory.
    pub(crate) fn new(alloc: Global, link: u32) -> Intake
        ensures { result ≡ record { link = link; decoder = fresh } }
    {
        Intake {
            link,
            decoder: Decoder::new(alloc),
        }
    }

    /// Takes bytes, and delivers their messages, up to the last of them or to what ends the input.
    pub(crate) fn feed<R: Threads + Wait + Sync, L: Ledger>(
        &mut self,
        alloc: Global,
        space: &Space,
        rt: &R,
        seat: &mut TurnSeat<Core>,
        steps: &mut Steps<L>,
        bytes: &[u8],
    ) -> Result<(), InEnd>
        requires of_turn { seat.old.turn ≡ space.now }
        requires opened { HasOpened seat.old self.old.link }
        requires fits { self.old.decoder.taken + length bytes.now < 2 ^ 63 }
        requires listening { IsListening self.old seat.old }
        ensures same_seat { IsSameSeat seat.old seat.new }
        ensures opened { HasOpened seat.new self.old.link }
        ensures same_link { self.new.link ≡ self.old.link }
        ensures feeds { (link : ℕ) (first : SeatSight) (read : List ℕ) → Listens link first read self.old seat.old
            → Feeds link first (read ++ bytes.now) result self.new seat.new }
    {
        let mut rest = bytes;
        while !rest.is_empty() {
            let count = self.feed_some(alloc, space, rt, seat, steps, rest)?;
            rest = rest.split_at(count).1;
        }
        Ok(())
    }

    /// Says how an input ends after which no byte follows.
    pub(crate) fn finish(&mut self) -> InEnd
        ensures same_link { self.new.link ≡ self.old.link }
        ensures finishes { (link : ℕ) (first : SeatSight) (read : List ℕ) (now : SeatSight) → Listens link first read self.old now → Finishes link first read result now }
    {
        match self.decoder.end() {
            Ok(()) => InEnd::Ended,
            Err(stop) => end_of(stop),
        }
    }

    // Takes bytes up to the end of a message or of the bytes, delivers the message, and says how many it took.
    fn feed_some<R: Threads + Wait + Sync, L: Ledger>(
        &mut self,
        alloc: Global,
        space: &Space,
        rt: &R,
        seat: &mut TurnSeat<Core>,
        steps: &mut Steps<L>,
        bytes: &[u8],
    ) -> Result<usize, InEnd>
        requires some { 0 < length bytes.now }
        requires of_turn { seat.old.turn ≡ space.now }
        requires opened { HasOpened seat.old self.old.link }
        requires fits { self.old.decoder.taken + length bytes.now < 2 ^ 63 }
        requires listening { IsListening self.old seat.old }
        ensures same_seat { IsSameSeat seat.old seat.new }
        ensures opened { HasOpened seat.new self.old.link }
        ensures same_link { self.new.link ≡ self.old.link }
        ensures within { IfOk result (λ count. (0 < count) × (count ≤ length bytes.now)) }
        ensures feeds { (link : ℕ) (first : SeatSight) (read : List ℕ) → Listens link first read self.old seat.old
            → FeedsSome link first read bytes.now result self.new seat.new }
    {
        let count = match self.decoder.feed(alloc, bytes) {
            Ok(count) => count,
            Err(stop) => return Err(end_of(stop)),
        };
        let Some(framed) = self.decoder.next() else {
            return Ok(count);
        };
        self.hear(alloc, space, rt, seat, steps, &framed)?;
        Ok(count)
    }

    // Delivers a message. One that is no request is the last.
    fn hear<R: Threads + Wait + Sync, L: Ledger>(
        &self,
        alloc: Global,
        space: &Space,
        rt: &R,
        seat: &mut TurnSeat<Core>,
        steps: &mut Steps<L>,
        framed: &Framed,
    ) -> Result<(), InEnd>
        requires of_turn { seat.old.turn ≡ space.now }
        requires opened { HasOpened seat.old self.now.link }
        ensures same_seat { IsSameSeat seat.old seat.new }
        ensures opened { HasOpened seat.new self.now.link }
        ensures delivers { Delivers self.now.link (placed_of framed.now) seat.old result seat.new }
    {
        let Ok(arrived) = shape(alloc, &framed.envelope) else {
            return Err(InEnd::NoMemory);
        };
        let is_last = is_no_request(&arrived);
        deliver(alloc, space, rt, seat, steps, self.link, arrived)?;
        if is_last {
            return Err(InEnd::NotRequest {
                start: framed.start,
            });
        }
        Ok(())
    }
}

// Whether a message is no request.
fn is_no_request(arrived: &Arrived) -> bool
    ensures { result ≡ is_refused arrived.now }
{
    match arrived {
        Arrived::Request(_) => false,
        Arrived::Wrong { .. } => false,
        Arrived::NotRequest => true,
    }
}

// How an input ends whose decoder stopped.
fn end_of(stop: Stop) -> InEnd
    ensures { result ≡ end_at stop }
{
    match stop {
        Stop::Syntax { place } => InEnd::Syntax { place },
        Stop::TooLong { start } => InEnd::TooLong { start },
        Stop::Cut { start } => InEnd::Cut { start },
        Stop::NoMemory => InEnd::NoMemory,
    }
}
