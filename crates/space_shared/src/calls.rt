//! The calls that a pump of input makes.
ghost use Rattle.std.specs.Prelude.{◌≡◌, ◌*◌, ◌↔◌, ℕ, true};
ghost use Rattle.space_turn.specs.Sights.{IsSameSeat};
ghost use Rattle.space_turn.specs.Histories.{calls_by};
ghost use Rattle.session_core.specs.Opened.{SuitsOpen};
ghost use Rattle.space_shared.specs.Exchanges.{HasOpened};
ghost use Rattle.space_shared.specs.Calling.{IsAnswered, Calls, EndsLink};
ghost use Rattle.space_shared.specs.Listening.{wants_end};
ghost use Rattle.space_shared.specs.declared.ends.InEnd.TheVariants.{Worn as IsWorn};

use crate::{InEnd, Space};
use m3_terms::Steps;
use session_core::{Call, Core, Reply};
use space_turn::{CallFault, TurnSeat};
use ssap_shape::Arrived;
use std::alloc::Global;
use std::sync::Wait;
use std::sync::ledger::Ledger;
use std::thread::Threads;

/// Delivers what arrived on a link, and rings the bells of those who then have messages.
pub(crate) fn deliver<R: Threads + Wait + Sync, L: Ledger>(
    alloc: Global,
    space: &Space,
    rt: &R,
    seat: &mut TurnSeat<Core>,
    steps: &mut Steps<L>,
    link: u32,
    arrived: Arrived,
) -> Result<(), InEnd>
    requires of_turn { seat.old.turn ≡ space.now }
    requires opened { HasOpened seat.old link }
    ensures same_seat { IsSameSeat seat.old seat.new }
    ensures opened { HasOpened seat.new link }
    ensures calls { Calls link arrived seat.old result seat.new }
{
    match space
        .turn()
        .call(alloc, rt, seat, Call::Deliver(link, arrived), steps)
    {
        Ok(reply) => {
            if answered(space, rt, reply) {
                Ok(())
            } else {
                Err(InEnd::Closed)
            }
        }
        Err(CallFault::Worn { count }) => Err(InEnd::Worn { count }),
        Err(CallFault::NoMemory) => Err(InEnd::NoMemory),
    }
}

/// Ends a link whose input ended so.
pub(crate) fn end_link<R: Threads + Wait + Sync, L: Ledger>(
    alloc: Global,
    space: &Space,
    rt: &R,
    seat: &mut TurnSeat<Core>,
    steps: &mut Steps<L>,
    link: u32,
    end: InEnd,
) -> InEnd
    requires of_turn { seat.old.turn ≡ space.now }
    requires opened { HasOpened seat.old link }
    requires wanted { wants_end end ≡ true }
    ensures same_seat { IsSameSeat seat.old seat.new }
    ensures own { seat.new.mine ≡ calls_by seat.new.number seat.new.seen }
    ensures ends { EndsLink link end seat.old result seat.new }
    ensures worn { (count : ℕ) → (result ≡ IsWorn count) ↔ ((seat.new.found ≡ 2 * count) × (count ≡ 4611686018427387904)) }
{
    match space.turn().call(alloc, rt, seat, Call::End(link), steps) {
        Ok(reply) => {
            answered(space, rt, reply);
            end
        }
        Err(CallFault::Worn { count }) => InEnd::Worn { count },
        Err(CallFault::NoMemory) => unreachable!(),
    }
}

// Whether a call for a link that was opened was done. It rings the bells of those who then have messages.
fn answered<R: Wait>(space: &Space, rt: &R, reply: Reply) -> bool
    requires { SuitsOpen reply }
    ensures { IsAnswered reply result }
{
    match reply {
        Reply::Done { ring } => {
            space.ring(rt, &ring);
            true
        }
        Reply::Closed => false,
        Reply::Opened(_) => unreachable!(),
        Reply::TooManyLinks { .. } => unreachable!(),
        Reply::NoLink => unreachable!(),
        Reply::Message(_) => unreachable!(),
        Reply::Empty => unreachable!(),
        Reply::Over => unreachable!(),
    }
}
