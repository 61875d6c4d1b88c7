//! The pump of a link's input.
ghost use Rattle.std.specs.Prelude.{◌≡◌, ◌*◌, ◌↔◌, ◌<◌, ℕ, List, length, IfOk};
ghost use mathlib.Core.List.{IsPrefix};
ghost use Rattle.space_turn.specs.Sights.{IsSameSeat};
ghost use Rattle.space_turn.specs.Histories.{calls_by};
ghost use Rattle.space_shared.specs.Exchanges.{SeatSight, HasOpened};
ghost use Rattle.space_shared.specs.Input.{Inlet, inlet, PumpsIn};
ghost use Rattle.space_shared.specs.Listening.{wants_end};
ghost use Rattle.space_shared.specs.Reads.{Hears, Reading, IsReading, TurnsOn, spent_by};
ghost use Rattle.space_shared.specs.declared.ends.InEnd.TheVariants.{Worn as IsWorn};

use crate::calls::end_link;
use crate::intake::Intake;
use crate::{InEnd, Space};
use m3_terms::Steps;
use session_core::Core;
use sib_io::{INPUT_LIMIT, Source, read_at_most};
use space_turn::TurnSeat;
use std::alloc::Global;
use std::marker::Brand;
use std::sync::Wait;
use std::sync::ledger::{Blank, Ledger};
use std::thread::Threads;

/// The most bytes that one read takes.
const BUFFER: usize = 65_536;

/// Reads the bytes of a link to their end, and delivers its messages in their order. It rings the bells of those whose
/// messages then wait. Its last call ends the link, but where the link was found closed or the history is worn.
///
/// The memory holds a piece of the input and one message at hand. It may wait for input, for the turn, and for the lock of a
/// bell.
///
/// | End | Where |
/// |---|---|
/// | `Ended` | the input is over, and no message is cut |
/// | `Syntax`, `TooLong` | no stream goes on with the next byte; or one does, and its message is too long |
/// | `Cut` | the input is over inside a message |
/// | `NotRequest` | a message is no request |
/// | `Closed` | a message came after the link had been closed |
/// | `ReadFault` | the source failed; the messages before were delivered |
/// | `Spent` | 1,099,511,627,776 bytes were taken, and the end was not seen |
/// | `Worn` | the history has as many calls as it may have; it goes before all others |
/// | `NoMemory` | out of memory |
pub fn pump_in<S: Source, R: Threads + Wait + Sync>(
    alloc: Global,
    space: &Space,
    rt: &R,
    seat: &mut TurnSeat<Core>,
    link: u32,
    source: &mut S,
) -> InEnd
    requires of_turn { seat.old.turn ≡ space.now }
    requires opened { HasOpened seat.old link }
    ensures same_seat { IsSameSeat seat.old seat.new }
    ensures grown { IsPrefix seat.old.seen seat.new.seen }
    ensures own { seat.new.mine ≡ calls_by seat.new.number seat.new.seen }
    ensures pumped { PumpsIn link seat.old (inlet (S.left source.old) (S.faults source.old)) (inlet (S.left source.new) (S.faults source.new)) result seat.new }
    ensures worn { (count : ℕ) → (result ≡ IsWorn count) ↔ ((seat.new.found ≡ 2 * count) × (count ≡ 4611686018427387904)) }
{
    counted::<_, _, Brand>(alloc, space, rt, seat, link, source, Blank::new(1))
}

// Pumps with a counter of its own, which counts for nobody.
fn counted<S: Source, R: Threads + Wait + Sync, L: Ledger>(
    alloc: Global,
    space: &Space,
    rt: &R,
    seat: &mut TurnSeat<Core>,
    link: u32,
    source: &mut S,
    blank: Blank,
) -> InEnd
    requires of_turn { seat.old.turn ≡ space.now }
    requires opened { HasOpened seat.old link }
    requires name { blank.name ≡ L.name }
    requires parts { blank.parts ≡ L.parts }
    requires some { 0 < L.parts }
    ensures same_seat { IsSameSeat seat.old seat.new }
    ensures own { seat.new.mine ≡ calls_by seat.new.number seat.new.seen }
    ensures pumped { PumpsIn link seat.old (inlet (S.left source.old) (S.faults source.old)) (inlet (S.left source.new) (S.faults source.new)) result seat.new }
    ensures worn { (count : ℕ) → (result ≡ IsWorn count) ↔ ((seat.new.found ≡ 2 * count) × (count ≡ 4611686018427387904)) }
{
    let mut steps = Steps::<L>::new(blank);
    let end = read_all(alloc, space, rt, seat, &mut steps, link, source);
    if needs_end(end) {
        return end_link(alloc, space, rt, seat, &mut steps, link, end);
    }
    end
}

// Whether the link is still to be ended where its input ends so.
fn needs_end(end: InEnd) -> bool
    ensures { result ≡ wants_end end }
{
    match end {
        InEnd::Ended => true,
        InEnd::Syntax { .. } => true,
        InEnd::TooLong { .. } => true,
        InEnd::Cut { .. } => true,
        InEnd::NotRequest { .. } => true,
        InEnd::Closed => false,
        InEnd::ReadFault => true,
        InEnd::Spent => true,
        InEnd::Worn { .. } => false,
        InEnd::NoMemory => true,
    }
}

// Reads all that the source has, and delivers its messages, until something ends that.
fn read_all<S: Source, R: Threads + Wait + Sync, L: Ledger>(
    alloc: Global,
    space: &Space,
    rt: &R,
    seat: &mut TurnSeat<Core>,
    steps: &mut Steps<L>,
    link: u32,
    source: &mut S,
) -> InEnd
    requires of_turn { seat.old.turn ≡ space.now }
    requires opened { HasOpened seat.old link }
    ensures same_seat { IsSameSeat seat.old seat.new }
    ensures opened { HasOpened seat.new link }
    ensures hears { Hears link seat.old (inlet (S.left source.old) (S.faults source.old)) (inlet (S.left source.new) (S.faults source.new)) result seat.new }
{
    let mut intake = Intake::new(alloc, link);
    let mut buffer = [0u8; BUFFER];
    let mut left = INPUT_LIMIT;
    loop {
        match turn(
            alloc,
            &mut intake,
            space,
            rt,
            seat,
            steps,
            source,
            &mut buffer,
            left,
        ) {
            Ok(count) => left -= count,
            Err(end) => return end,
        }
    }
}

// Reads once, at most so many bytes as may still be taken, and delivers the messages that end in what was read.
fn turn<S: Source, R: Threads + Wait + Sync, L: Ledger>(
    alloc: Global,
    intake: &mut Intake,
    space: &Space,
    rt: &R,
    seat: &mut TurnSeat<Core>,
    steps: &mut Steps<L>,
    source: &mut S,
    buffer: &mut [u8],
    left: u64,
) -> Result<u64, InEnd>
    requires of_turn { seat.old.turn ≡ space.now }
    requires opened { HasOpened seat.old intake.old.link }
    requires left { 0 < left }
    requires room { 0 < length buffer.old }
    requires reading { IsReading (inlet (S.left source.old) (S.faults source.old)) left intake.old seat.old }
    ensures same_seat { IsSameSeat seat.old seat.new }
    ensures opened { HasOpened seat.new intake.old.link }
    ensures same_link { intake.new.link ≡ intake.old.link }
    ensures within { IfOk result (λ count. (0 < count) × (count < left)) }
    ensures turned { (link : ℕ) (first : SeatSight) (old : Inlet) (read : List ℕ)
        → Reading link first old (inlet (S.left source.old) (S.faults source.old)) read left intake.old seat.old
        → TurnsOn link first old (inlet (S.left source.new) (S.faults source.new)) read left result intake.new seat.new }
{
    let Ok(count) = read_at_most(source, buffer, left) else {
        return Err(InEnd::ReadFault);
    };
    if count == 0 {
        return Err(intake.finish());
    }
    let fed = intake.feed(alloc, space, rt, seat, steps, buffer.split_at(count).0);
    if count as u64 == left {
        return Err(spent(fed));
    }
    fed?;
    Ok(count as u64)
}

// How an input ends of which no more may be taken, after its last piece.
fn spent(fed: Result<(), InEnd>) -> InEnd
    ensures { result ≡ spent_by fed }
{
    match fed {
        Ok(()) => InEnd::Spent,
        Err(InEnd::Ended) => InEnd::Spent,
        Err(InEnd::Syntax { .. }) => InEnd::Spent,
        Err(InEnd::TooLong { .. }) => InEnd::Spent,
        Err(InEnd::Cut { .. }) => InEnd::Spent,
        Err(InEnd::NotRequest { .. }) => InEnd::Spent,
        Err(InEnd::Closed) => InEnd::Spent,
        Err(InEnd::ReadFault) => InEnd::Spent,
        Err(InEnd::Spent) => InEnd::Spent,
        Err(InEnd::Worn { count }) => InEnd::Worn { count },
        Err(InEnd::NoMemory) => InEnd::NoMemory,
    }
}
