//! A machine that adds numbers and answers the total, called by one seat after another.
ghost use Rattle.std.specs.Prelude.{◌≡◌, ◌<◌};

use m3_terms::{NoMemory, Steps};
use space_turn::{CallFault, Closed, Machine, Turn, TurnSeat};
use std::alloc::Global;
use std::marker::Brand;
use std::sync::Wait;
use std::sync::ledger::{Blank, Ledger};
use std::test::Fail;
use std::thread::Threads;

#[derive(Drop)]
struct Sum {
    total: u64,
}

impl Machine for Sum {
    ghost use Rattle.std.specs.Prelude.{◌≡◌, ⊤};
    ghost use Rattle.tests_turn.specs.Sums.{plus, total_after};

    type Call = u64;

    type Reply = u64;

    type Root = ();

    ghost root = { λ _. tt };

    ghost some_root = { tt };

    ghost stands = { λ machine numbers. machine.total ≡ total_after 0 numbers };

    ghost replies = { λ _ numbers number. plus (total_after 0 numbers) number };

    ghost lean = { λ _. ⊤ };

    #[tactic(auto, using(crate::proofs::OneNumberMore::one_number_more))]
    fn step<R: Threads + Sync, L: Ledger>(
        &mut self,
        _alloc: Global,
        _rt: &R,
        number: u64,
        _steps: &mut Steps<L>,
    ) -> Result<u64, NoMemory> {
        self.total = self.total.wrapping_add(number);
        Ok(self.total)
    }
}

/// What the calls were answered, what the counts were, and the total at the end.
type Story = ([Result<u64, CallFault>; 3], [u64; 2], Option<u64>);

fn total_of(closed: Closed<Sum>) -> Option<u64> {
    match closed {
        Closed::Machine(machine) => Some(machine.total),
        Closed::Held { word: _ } => None,
    }
}

fn story<R: Threads + Wait + Sync, L: Ledger>(
    rt: &R,
    alloc: Global,
    blank: Blank,
) -> Result<Story, NoMemory>
    requires name { blank.name ≡ L.name }
    requires parts { blank.parts ≡ L.parts }
    requires some { 0 < L.parts }
{
    let mut steps = Steps::<L>::new(blank);
    let (turn, mut seat) = Turn::make(alloc, Sum { total: 0 })?;
    let first = turn.call(alloc, rt, &mut seat, 2, &mut steps);
    let second = turn.call(alloc, rt, &mut seat, 3, &mut steps);
    let before = turn.count(&mut seat);
    let mut other: TurnSeat<Sum> = turn.split(&mut seat);
    let third = turn.call(alloc, rt, &mut other, 4, &mut steps);
    turn.join(&mut seat, other);
    let after = turn.count(&mut seat);
    Ok((
        [first, second, third],
        [before, after],
        total_of(turn.close(seat)),
    ))
}

#[test]
fn seats_share_one_total(rt: HostRuntime) -> Result<(), Fail> {
    let (answers, counts, total) = story::<_, Brand>(&rt, rt.alloc(), Blank::new(1))?;
    assert_eq!(rt; answers, [Ok(2), Ok(5), Ok(9)]);
    assert_eq!(rt; counts, [2, 3]);
    assert_eq!(rt; total, Some(9));
    Ok(())
}
