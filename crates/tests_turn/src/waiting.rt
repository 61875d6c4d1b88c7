//! A machine whose step waits until a flag is set, so that another thread's seat finds the turn taken.
ghost use Rattle.std.specs.Prelude.{◌≡◌, ◌<◌};

use m3_terms::{NoMemory, Steps};
use space_turn::{Machine, TryFault, Turn, TurnSeat};
use std::alloc::Global;
use std::marker::Brand;
use std::sync::Arc;
use std::sync::atomic::{AtomicU64, Ordering};
use std::sync::ledger::{Blank, Ledger};
use std::test::Fail;
use std::thread;
use std::thread::Threads;

/// The most turns that a thread waits for a flag.
const TURNS: u64 = 100_000_000;

/// A flag that threads share.
type Flag = Arc<AtomicU64, Global>;

/// Adds numbers. A call with 0 tells that it began, and waits until it may go on.
#[derive(Drop)]
struct Patient {
    total: u64,
    began: Flag,
    go_on: Flag,
    gave_up: Flag,
}

impl Machine for Patient {
    ghost use Rattle.std.specs.Prelude.{◌≡◌, ⊤};
    ghost use Rattle.tests_turn.specs.Sums.{plus, total_after};

    type Call = u64;

    type Reply = u64;

    type Root = ();

    ghost root = { λ _. tt };

    ghost some_root = { tt };

    ghost stands = { λ machine numbers. machine.total ≡ total_after 0 numbers };

    ghost replies = { λ _ numbers number. plus (total_after 0 numbers) number };

    ghost lean = { λ _. ⊤ };

    #[tactic(auto, using(crate::proofs::OneNumberMore::one_number_more))]
    fn step<R: Threads + Sync, L: Ledger>(
        &mut self,
        _alloc: Global,
        _rt: &R,
        number: u64,
        _steps: &mut Steps<L>,
    ) -> Result<u64, NoMemory> {
        if number == 0 {
            self.began.store(1, Ordering::SeqCst);
            if !is_set_in_time(&self.go_on) {
                self.gave_up.store(1, Ordering::SeqCst);
            }
        }
        self.total = self.total.wrapping_add(number);
        Ok(self.total)
    }
}

/// Waits until the flag is set, and tells whether it was within the turns.
fn is_set_in_time(flag: &AtomicU64) -> bool {
    for _ in 0..TURNS {
        if flag.load(Ordering::SeqCst) == 1 {
            return true;
        }
        thread::yield_now();
    }
    false
}

fn call<R: Threads + Sync, L: Ledger>(
    rt: &R,
    alloc: Global,
    turn: &Turn<Patient>,
    seat: &mut TurnSeat<Patient>,
    number: u64,
    blank: Blank,
) -> Result<u64, TryFault>
    requires of_turn { seat.old.turn ≡ turn.now }
    requires name { blank.name ≡ L.name }
    requires parts { blank.parts ≡ L.parts }
    requires some { 0 < L.parts }
    ensures of_turn { seat.new.turn ≡ seat.old.turn }
{
    let mut steps = Steps::<L>::new(blank);
    turn.try_call(alloc, rt, seat, number, &mut steps)
}

/// Calls once, on a counter that counts for nobody.
fn call_once<R: Threads + Sync>(
    rt: &R,
    alloc: Global,
    turn: &Turn<Patient>,
    seat: &mut TurnSeat<Patient>,
    number: u64,
) -> Result<u64, TryFault>
    requires of_turn { seat.old.turn ≡ turn.now }
    ensures of_turn { seat.new.turn ≡ seat.old.turn }
{
    call::<_, Brand>(rt, alloc, turn, seat, number, Blank::new(1))
}

/// Calls once, by a seat that is not used again.
fn call_and_end<R: Threads + Sync>(
    rt: &R,
    alloc: Global,
    turn: &Turn<Patient>,
    mut seat: TurnSeat<Patient>,
    number: u64,
) -> Result<u64, TryFault>
    requires of_turn { seat.turn ≡ turn.now }
{
    call_once(rt, alloc, turn, &mut seat, number)
}

/// Calls once the machine's step has begun, lets the step go on, and hands the seat back. `None` where it began too late.
fn disturb<R: Threads + Sync>(
    rt: &R,
    alloc: Global,
    turn: &Turn<Patient>,
    mut seat: TurnSeat<Patient>,
    began: &AtomicU64,
    go_on: &AtomicU64,
) -> (TurnSeat<Patient>, Option<Result<u64, TryFault>>)
    requires of_turn { seat.turn ≡ turn.now }
    ensures of_turn { result.0.turn ≡ turn.now }
{
    let is_begun = is_set_in_time(began);
    let answer = call_once(rt, alloc, turn, &mut seat, 7);
    go_on.store(1, Ordering::SeqCst);
    (seat, is_begun.then_some(answer))
}

/// What a first call, a call that waits, a call beside it and a last call were answered, and whether the step gave up.
type Story = (
    Result<u64, TryFault>,
    Result<u64, TryFault>,
    Option<Result<u64, TryFault>>,
    Result<u64, TryFault>,
    u64,
);

fn story<R: Threads + Sync>(rt: &R, alloc: Global) -> Result<Story, NoMemory> {
    let began = Arc::new(alloc, AtomicU64::new(0))?;
    let go_on = Arc::new(alloc, AtomicU64::new(0))?;
    let gave_up = Arc::new(alloc, AtomicU64::new(0))?;
    let machine = Patient {
        total: 0,
        began: Arc::try_clone(&began)?,
        go_on: Arc::try_clone(&go_on)?,
        gave_up: Arc::try_clone(&gave_up)?,
    };
    let (turn, mut seat) = Turn::make(alloc, machine)?;
    let other = turn.split(&mut seat);
    let first = call_once(rt, alloc, &turn, &mut seat, 5);
    let shared = &turn;
    let (held, (mut other, beside)) = thread::join(
        rt,
        move ||
            requires { seat.turn ≡ shared.now }
        { call_and_end(rt, alloc, shared, seat, 0) },
        || -> (TurnSeat<Patient>, Option<Result<u64, TryFault>>)
            requires { other.turn ≡ shared.now }
            ensures { result.0.turn ≡ shared.entry.now }
        { disturb(rt, alloc, shared, other, &began, &go_on) },
    );
    let last = call_once(rt, alloc, &turn, &mut other, 7);
    Ok((first, held, beside, last, gave_up.load(Ordering::SeqCst)))
}

#[test]
fn a_second_seat_finds_the_turn_taken(rt: HostRuntime) -> Result<(), Fail> {
    let (first, held, beside, last, gave_up) = story(&rt, rt.alloc())?;
    assert_eq!(rt; (first, held), (Ok(5), Ok(5)));
    assert_eq!(rt; beside, Some(Err(TryFault::Busy { count: 1 })));
    assert_eq!(rt; last, Ok(12));
    assert_eq!(rt; gave_up, 0);
    Ok(())
}
