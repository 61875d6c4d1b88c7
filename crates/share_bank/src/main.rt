//! A bank that two threads share: the example of docs/THREADS.md.
#![tactic(auto)]

mod bank;

ghost use Rattle.std.specs.Prelude.{◌≡◌, ◌<◌};

use crate::bank::{Bank, Change, Order};
use m3_terms::Steps;
use space_turn::{CallFault, Turn, TurnSeat};
use std::alloc::Global;
use std::marker::Brand;
use std::process::ExitCode;
use std::sync::Wait;
use std::sync::ledger::{Blank, Ledger};
use std::thread;
use std::thread::Threads;

/// How often each thread pays in.
const PAYMENTS: u64 = 1000;

fn main(rt: HostRuntime) -> ExitCode {
    let Ok((first, second)) = open_and_pay(&rt, rt.alloc()) else {
        return ExitCode::from(1);
    };
    match println!(rt; "balances {first} and {second}") {
        Ok(()) => ExitCode::SUCCESS,
        Err(_) => ExitCode::from(1),
    }
}

// Two threads pay into one bank, each by a seat of its own. The balances of the two accounts.
fn open_and_pay<R: Threads + Wait + Sync>(rt: &R, alloc: Global) -> Result<(u64, u64), CallFault> {
    let Ok(bank) = Bank::new(alloc) else {
        return Err(CallFault::NoMemory);
    };
    let Ok((turn, mut seat)) = Turn::make(alloc, bank) else {
        return Err(CallFault::NoMemory);
    };
    let other = turn.split(&mut seat);
    let shared = &turn;
    let ((mut seat, mine), (other, theirs)) = thread::join(
        rt,
        move || -> (TurnSeat<Bank>, Result<(), CallFault>)
            requires { seat.turn ≡ shared.now }
            ensures { result.0.turn ≡ shared.entry.now }
        { pay_as(rt, alloc, shared, seat, 0, 3) },
        move || -> (TurnSeat<Bank>, Result<(), CallFault>)
            requires { other.turn ≡ shared.now }
            ensures { result.0.turn ≡ shared.entry.now }
        { pay_as(rt, alloc, shared, other, 1, 5) },
    );
    mine?;
    theirs?;
    turn.join(&mut seat, other);
    let first = call_once(rt, alloc, &turn, &mut seat, look(0))?;
    let second = call_once(rt, alloc, &turn, &mut seat, look(1))?;
    Ok((first.unwrap_or(0), second.unwrap_or(0)))
}

// The order for a balance.
fn look(account: usize) -> Order {
    Order {
        account,
        change: Change::Look,
    }
}

// Pays by a seat of a thread's own, and hands the seat back.
fn pay_as<R: Threads + Wait + Sync>(
    rt: &R,
    alloc: Global,
    turn: &Turn<Bank>,
    mut seat: TurnSeat<Bank>,
    account: usize,
    amount: u64,
) -> (TurnSeat<Bank>, Result<(), CallFault>)
    requires of_turn { seat.turn ≡ turn.now }
    ensures of_turn { result.0.turn ≡ turn.now }
{
    let paid = pay_all(rt, alloc, turn, &mut seat, account, amount);
    (seat, paid)
}

// Pays an amount in a thousand times, each time followed by a withdrawal of one.
fn pay_all<R: Threads + Wait + Sync>(
    rt: &R,
    alloc: Global,
    turn: &Turn<Bank>,
    seat: &mut TurnSeat<Bank>,
    account: usize,
    amount: u64,
) -> Result<(), CallFault>
    requires of_turn { seat.old.turn ≡ turn.now }
    ensures of_turn { seat.new.turn ≡ seat.old.turn }
{
    for _ in 0..PAYMENTS {
        let change = Change::Deposit(amount);
        call_once(rt, alloc, turn, seat, Order { account, change })?;
        let change = Change::Withdraw(1);
        call_once(rt, alloc, turn, seat, Order { account, change })?;
    }
    Ok(())
}

// One order, on a counter that counts for nobody.
fn call_once<R: Threads + Wait + Sync>(
    rt: &R,
    alloc: Global,
    turn: &Turn<Bank>,
    seat: &mut TurnSeat<Bank>,
    order: Order,
) -> Result<Option<u64>, CallFault>
    requires of_turn { seat.old.turn ≡ turn.now }
    ensures of_turn { seat.new.turn ≡ seat.old.turn }
{
    counted::<_, Brand>(rt, alloc, turn, seat, order, Blank::new(1))
}

fn counted<R: Threads + Wait + Sync, L: Ledger>(
    rt: &R,
    alloc: Global,
    turn: &Turn<Bank>,
    seat: &mut TurnSeat<Bank>,
    order: Order,
    blank: Blank,
) -> Result<Option<u64>, CallFault>
    requires of_turn { seat.old.turn ≡ turn.now }
    requires name { blank.name ≡ L.name }
    requires parts { blank.parts ≡ L.parts }
    requires some { 0 < L.parts }
    ensures of_turn { seat.new.turn ≡ seat.old.turn }
{
    let mut steps = Steps::<L>::new(blank);
    turn.call(alloc, rt, seat, order, &mut steps)
}
