//! Calls by a turn: a counter that one seat calls, or four seats of four threads.
ghost use Rattle.std.specs.Prelude.{◌≡◌, ◌<◌, IfOk};

use crate::counter::Counter;
use m3_terms::Steps;
use space_turn::{CallFault, Turn, TurnSeat};
use std::alloc::Global;
use std::marker::Brand;
use std::sync::Wait;
use std::sync::ledger::{Blank, Ledger};
use std::thread;
use std::thread::Threads;

/// One seat calls so often.
pub fn by_seat<R: Threads + Wait + Sync>(
    rt: &R,
    alloc: Global,
    calls: u64,
) -> Result<u64, CallFault> {
    let (turn, mut seat) = open(alloc)?;
    call_all(rt, alloc, &turn, &mut seat, calls)?;
    Ok(turn.count(&mut seat))
}

/// Four seats call so often each, in four threads.
pub fn by_seats<R: Threads + Wait + Sync>(
    rt: &R,
    alloc: Global,
    calls: u64,
) -> Result<u64, CallFault> {
    let (turn, mut first) = open(alloc)?;
    let second = turn.split(&mut first);
    let third = turn.split(&mut first);
    let fourth = turn.split(&mut first);
    let shared = &turn;
    let (one, other) = thread::join(
        rt,
        move || -> Result<TurnSeat<Counter>, CallFault>
            requires { (first.turn ≡ shared.now) × (second.turn ≡ shared.now) }
            ensures { IfOk result (λ seat. seat.turn ≡ shared.entry.now) }
        { two(rt, alloc, shared, first, second, calls) },
        move || -> Result<TurnSeat<Counter>, CallFault>
            requires { (third.turn ≡ shared.now) × (fourth.turn ≡ shared.now) }
            ensures { IfOk result (λ seat. seat.turn ≡ shared.entry.now) }
        { two(rt, alloc, shared, third, fourth, calls) },
    );
    let mut seat = one?;
    turn.join(&mut seat, other?);
    Ok(turn.count(&mut seat))
}

// A turn over a counter, and its first seat.
fn open(alloc: Global) -> Result<(Turn<Counter>, TurnSeat<Counter>), CallFault>
    ensures { IfOk result (λ made. made.1.turn ≡ made.0) }
{
    match Turn::make(alloc, Counter { calls: 0 }) {
        Ok((turn, seat)) => Ok((turn, seat)),
        Err(_) => Err(CallFault::NoMemory),
    }
}

// Two seats call so often each, in two threads, and are then joined.
fn two<R: Threads + Wait + Sync>(
    rt: &R,
    alloc: Global,
    turn: &Turn<Counter>,
    first: TurnSeat<Counter>,
    second: TurnSeat<Counter>,
    calls: u64,
) -> Result<TurnSeat<Counter>, CallFault>
    requires first_of_turn { first.turn ≡ turn.now }
    requires second_of_turn { second.turn ≡ turn.now }
    ensures of_turn { IfOk result (λ seat. seat.turn ≡ turn.now) }
{
    let (one, other) = thread::join(
        rt,
        move || -> Result<TurnSeat<Counter>, CallFault>
            requires { first.turn ≡ turn.now }
            ensures { IfOk result (λ seat. seat.turn ≡ turn.entry.now) }
        { call_as(rt, alloc, turn, first, calls) },
        move || -> Result<TurnSeat<Counter>, CallFault>
            requires { second.turn ≡ turn.now }
            ensures { IfOk result (λ seat. seat.turn ≡ turn.entry.now) }
        { call_as(rt, alloc, turn, second, calls) },
    );
    let mut seat = one?;
    turn.join(&mut seat, other?);
    Ok(seat)
}

// One seat of a thread's own calls so often, and is handed back.
fn call_as<R: Threads + Wait + Sync>(
    rt: &R,
    alloc: Global,
    turn: &Turn<Counter>,
    mut seat: TurnSeat<Counter>,
    calls: u64,
) -> Result<TurnSeat<Counter>, CallFault>
    requires of_turn { seat.turn ≡ turn.now }
    ensures of_turn { IfOk result (λ seat. seat.turn ≡ turn.now) }
{
    call_all(rt, alloc, turn, &mut seat, calls)?;
    Ok(seat)
}

// One seat calls so often, on a counter of rows that counts for nobody.
fn call_all<R: Threads + Wait + Sync>(
    rt: &R,
    alloc: Global,
    turn: &Turn<Counter>,
    seat: &mut TurnSeat<Counter>,
    calls: u64,
) -> Result<(), CallFault>
    requires of_turn { seat.old.turn ≡ turn.now }
    ensures of_turn { seat.new.turn ≡ seat.old.turn }
{
    counted::<_, Brand>(rt, alloc, turn, seat, calls, Blank::new(1))
}

fn counted<R: Threads + Wait + Sync, L: Ledger>(
    rt: &R,
    alloc: Global,
    turn: &Turn<Counter>,
    seat: &mut TurnSeat<Counter>,
    calls: u64,
    blank: Blank,
) -> Result<(), CallFault>
    requires of_turn { seat.old.turn ≡ turn.now }
    requires name { blank.name ≡ L.name }
    requires parts { blank.parts ≡ L.parts }
    requires some { 0 < L.parts }
    ensures of_turn { seat.new.turn ≡ seat.old.turn }
{
    let mut steps = Steps::<L>::new(blank);
    for _ in 0..calls {
        turn.call(alloc, rt, seat, (), &mut steps)?;
    }
    Ok(())
}
