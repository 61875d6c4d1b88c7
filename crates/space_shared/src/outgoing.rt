//! The pump of a link's output.
ghost use Rattle.std.specs.Prelude.{◌≡◌, ◌*◌, ◌<◌, ◌↔◌, ℕ, List, IfSome};
ghost use mathlib.Core.List.{IsPrefix};
ghost use Rattle.space_turn.specs.Sights.{IsSameSeat};
ghost use Rattle.space_turn.specs.Histories.{calls_by};
ghost use Rattle.space_shared.specs.Exchanges.{SeatSight, Exchange, HasOpened};
ghost use Rattle.space_shared.specs.Output.{Outlet, outlet, PumpsOut, GivesWhatWasSent, HandsOn};
ghost use Rattle.space_shared.specs.Pumping.{Asks, Loses, Pumps, PumpsOn, IsPumped, EndsAt};
ghost use Rattle.space_shared.specs.declared.ends.OutEnd.TheVariants.{Worn as IsWorn};

use crate::{OutEnd, Space};
use m3_terms::{Bytes, Steps};
use session_core::{Call, Core, Reply};
use sib_io::Sink;
use space_turn::{CallFault, TurnSeat};
use std::alloc::Global;
use std::marker::Brand;
use std::sync::Wait;
use std::sync::ledger::{Blank, Ledger};
use std::thread::Threads;

/// What comes of asking a link for its next message.
enum Next {
    Message(Bytes),
    Empty,
    Over,
    Worn { count: u64 },
}

/// Takes the messages that wait on a link, one after another, and writes each whole. Where none waits it flushes the sink and
/// waits until the link's bell is rung. Where the sink fails it tells the space that the link is lost. It takes no memory.
///
/// At `Over` the sink is flushed too. Should that fail, the sink counts a fault, and the end stays `Over`.
pub fn pump_out<K: Sink, R: Threads + Wait + Sync>(
    alloc: Global,
    space: &Space,
    rt: &R,
    seat: &mut TurnSeat<Core>,
    link: u32,
    sink: &mut K,
) -> OutEnd
    requires of_turn { seat.old.turn ≡ space.now }
    requires opened { HasOpened seat.old link }
    ensures same_seat { IsSameSeat seat.old seat.new }
    ensures grown { IsPrefix seat.old.seen seat.new.seen }
    ensures own { seat.new.mine ≡ calls_by seat.new.number seat.new.seen }
    ensures pumped { PumpsOut link seat.old (outlet (K.given sink.old) (K.faults sink.old)) (outlet (K.given sink.new) (K.faults sink.new)) result seat.new }
    ensures sent { GivesWhatWasSent link seat.old (outlet (K.given sink.old) (K.faults sink.old)) (outlet (K.given sink.new) (K.faults sink.new)) seat.new }
    ensures handed { HandsOn result (K.given sink.new) (K.handed sink.new) (K.faults sink.old) (K.faults sink.new) }
    ensures worn { (count : ℕ) → (result ≡ IsWorn count) ↔ ((seat.new.found ≡ 2 * count) × (count ≡ 4611686018427387904)) }
{
    counted::<_, _, Brand>(alloc, space, rt, seat, link, sink, Blank::new(1))
}

// Pumps with a counter of its own, which counts for nobody.
fn counted<K: Sink, R: Threads + Wait + Sync, L: Ledger>(
    alloc: Global,
    space: &Space,
    rt: &R,
    seat: &mut TurnSeat<Core>,
    link: u32,
    sink: &mut K,
    blank: Blank,
) -> OutEnd
    requires of_turn { seat.old.turn ≡ space.now }
    requires opened { HasOpened seat.old link }
    requires name { blank.name ≡ L.name }
    requires parts { blank.parts ≡ L.parts }
    requires some { 0 < L.parts }
    ensures same_seat { IsSameSeat seat.old seat.new }
    ensures own { seat.new.mine ≡ calls_by seat.new.number seat.new.seen }
    ensures pumped { IsPumped link seat.old (outlet (K.given sink.old) (K.faults sink.old)) (outlet (K.given sink.new) (K.faults sink.new)) result seat.new }
    ensures handed { HandsOn result (K.given sink.new) (K.handed sink.new) (K.faults sink.old) (K.faults sink.new) }
    ensures cause { EndsAt result seat.new.found }
{
    let mut steps = Steps::<L>::new(blank);
    for _ in rt.forever() {
        if let Some(end) = turn(alloc, space, rt, seat, link, sink, &mut steps) {
            return end;
        }
    }
    unreachable!()
}

// Takes the next message and writes it, or waits for one; or ends. The bell is heard before the message is asked for, so that
// one that is sent in between is not slept through.
fn turn<K: Sink, R: Threads + Wait + Sync, L: Ledger>(
    alloc: Global,
    space: &Space,
    rt: &R,
    seat: &mut TurnSeat<Core>,
    link: u32,
    sink: &mut K,
    steps: &mut Steps<L>,
) -> Option<OutEnd>
    requires of_turn { seat.old.turn ≡ space.now }
    requires opened { HasOpened seat.old link }
    ensures same_seat { IsSameSeat seat.old seat.new }
    ensures own { seat.new.mine ≡ calls_by seat.new.number seat.new.seen }
    ensures pumped { (first : SeatSight) (old : Outlet) (said : List Exchange) → Pumps link first old said seat.old (outlet (K.given sink.old) (K.faults sink.old))
        → PumpsOn link first old said result seat.new (outlet (K.given sink.new) (K.faults sink.new)) }
    ensures handed { IfSome result (λ end. HandsOn end (K.given sink.new) (K.handed sink.new) (K.faults sink.old) (K.faults sink.new)) }
    ensures cause { IfSome result (λ end. EndsAt end seat.new.found) }
{
    let bell = space.bell(link);
    let heard = bell.rings(rt);
    match take(alloc, space, rt, seat, link, steps) {
        Next::Message(message) => match sink.write_all(message.as_slice()) {
            Ok(()) => None,
            Err(_) => Some(lose(alloc, space, rt, seat, link, steps)),
        },
        Next::Empty => match sink.flush() {
            Ok(()) => {
                bell.wait(rt, heard);
                None
            }
            Err(_) => Some(lose(alloc, space, rt, seat, link, steps)),
        },
        Next::Over => {
            let _ = sink.flush();
            Some(OutEnd::Over)
        }
        Next::Worn { count } => Some(OutEnd::Worn { count }),
    }
}

// Asks a link for the message that waits longest.
fn take<R: Threads + Wait + Sync, L: Ledger>(
    alloc: Global,
    space: &Space,
    rt: &R,
    seat: &mut TurnSeat<Core>,
    link: u32,
    steps: &mut Steps<L>,
) -> Next
    requires of_turn { seat.old.turn ≡ space.now }
    requires opened { HasOpened seat.old link }
    ensures same_seat { IsSameSeat seat.old seat.new }
    ensures own { seat.new.mine ≡ calls_by seat.new.number seat.new.seen }
    ensures asked { Asks link seat.old result seat.new }
{
    match space.turn().call(alloc, rt, seat, Call::Take(link), steps) {
        Ok(Reply::Message(message)) => Next::Message(message),
        Ok(Reply::Empty) => Next::Empty,
        Ok(Reply::Over) => Next::Over,
        Ok(Reply::Opened(_)) => unreachable!(),
        Ok(Reply::TooManyLinks { count: _ }) => unreachable!(),
        Ok(Reply::Done { ring: _ }) => unreachable!(),
        Ok(Reply::Closed) => unreachable!(),
        Ok(Reply::NoLink) => unreachable!(),
        Err(CallFault::Worn { count }) => Next::Worn { count },
        Err(CallFault::NoMemory) => unreachable!(),
    }
}

// Tells the space that a link is lost, and rings the bells of the links that this changed.
fn lose<R: Threads + Wait + Sync, L: Ledger>(
    alloc: Global,
    space: &Space,
    rt: &R,
    seat: &mut TurnSeat<Core>,
    link: u32,
    steps: &mut Steps<L>,
) -> OutEnd
    requires of_turn { seat.old.turn ≡ space.now }
    requires opened { HasOpened seat.old link }
    ensures same_seat { IsSameSeat seat.old seat.new }
    ensures own { seat.new.mine ≡ calls_by seat.new.number seat.new.seen }
    ensures lost { Loses link seat.old result seat.new }
{
    match space.turn().call(alloc, rt, seat, Call::Lost(link), steps) {
        Ok(Reply::Done { ring }) => {
            space.ring(rt, &ring);
            OutEnd::WriteFault
        }
        Ok(Reply::Message(_)) => unreachable!(),
        Ok(Reply::Empty) => unreachable!(),
        Ok(Reply::Over) => unreachable!(),
        Ok(Reply::Opened(_)) => unreachable!(),
        Ok(Reply::TooManyLinks { count: _ }) => unreachable!(),
        Ok(Reply::Closed) => unreachable!(),
        Ok(Reply::NoLink) => unreachable!(),
        Err(CallFault::Worn { count }) => OutEnd::Worn { count },
        Err(CallFault::NoMemory) => unreachable!(),
    }
}
