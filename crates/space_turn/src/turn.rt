//! A turn: one machine, and one history of its calls.
ghost use Rattle.std.specs.Prelude.{◌≡◌, ◌≢◌, ◌+◌, ◌*◌, ◌/◌, ◌<◌, ◌≤◌, ◌↔◌, ℕ, [], length, Some, IfOk, Err, IsOk, OnErr};
ghost use mathlib.Core.List.{IsPrefix};
ghost use Rattle.space_turn.specs.Histories.{calls_by, longer};
ghost use Rattle.space_turn.specs.Rule.{KnowsItsCalls};
ghost use Rattle.space_turn.specs.Sights.{IsSameSeat, HasSameHistory, HasCalled, IsLeft};
ghost use Rattle.space_turn.specs.Causes.{CallCause, TryCause, CallHadMemory, TryHadMemory};
ghost use Rattle.space_turn.specs.Steps.{released, IsIdle, IsHolding, Asks, IsServed, HasWaited, IsAnswered};
ghost use Rattle.space_turn.specs.declared.faults.CallFault.TheVariants as call_fault;
ghost use Rattle.space_turn.specs.declared.faults.TryFault.TheVariants as try_fault;

use crate::faults::{CallFault, Closed, TryFault};
use crate::machine::Machine;
use crate::plays::{
    Add, Ask, Asked, Compare, Law, Look, Meet, Part, Place, Release, RootOf, RootToken, ViewOf,
};
use crate::seat::TurnSeat;
use atomic_table::{Refused, Table};
use m3_terms::{NoMemory, Steps};
use std::alloc::Global;
use std::marker::{Brand, Model};
use std::sync::Wait;
use std::sync::ledger::Ledger;
use std::thread;
use std::thread::Threads;

/// The most calls that a history may have.
const MOST_CALLS: u64 = 1 << 62;

/// A machine that threads share, with the history of its calls. Contracts see which turn it is.
#[derive(Drop)]
pub struct Turn<M: Machine> {
    table: Table<Option<M>, ViewOf<M>, RootToken<M>, Law<M>, Global>,
}

impl<M: Machine> Model for Turn<M> {
    ghost use Rattle.std.specs.Prelude.{◌≡◌};
    ghost use Rattle.atomic_table.specs.Seated.{TableId, table_id_coded};

    ghost Value = { TableId };

    ghost coded = { table_id_coded };

    ghost view = { λ t. t.table.shared.table_id };

    ghost invariant = { λ t. (t.table.shared.table_id.words ≡ 1) × (t.table.shared.table_id.slots ≡ 1) };
}

impl<M: Machine> Turn<M> {
    /// A turn over a machine with an empty history, and its first seat.
    pub fn make(alloc: Global, machine: M) -> Result<(Turn<M>, TurnSeat<M>), NoMemory>
        requires empty { M.stands machine [] }
        ensures seat { IfOk result (λ made. (made.1.turn ≡ made.0) × (made.1.root ≡ M.root machine) × (made.1.number ≡ 0)) }
        ensures history { IfOk result (λ made. (made.1.seen ≡ []) × (made.1.mine ≡ []) × (made.1.found ≡ 0) × (made.1.looks ≡ 0)) }
    {
        let token = root_token(alloc, &machine)?;
        let mut slots = Vec::with_capacity(alloc, 1)?;
        slots.push_reserved(Some(machine));
        match Table::new(alloc, &[0], slots, &token) {
            Ok((table, place)) => Ok((Turn { table }, TurnSeat { place })),
            Err(Refused { slots: _ }) => Err(NoMemory),
        }
    }

    /// A new seat, which has seen as much as this one. Its number is its own, and it has made no call.
    pub fn split(&self, seat: &mut TurnSeat<M>) -> TurnSeat<M>
        requires of_turn { seat.old.turn ≡ self.now }
        ensures same { seat.new ≡ seat.old }
        ensures new { (result.turn ≡ seat.old.turn) × (result.root ≡ seat.old.root) × (result.found ≡ 0) × (result.looks ≡ 0) }
        ensures number { result.number ≢ seat.old.number }
        ensures history { (result.seen ≡ seat.old.seen) × (result.mine ≡ []) }
    {
        let place = self.table.shared.split_seat::<Part>(&mut seat.place);
        TurnSeat { place }
    }

    /// Tells a seat all that another has seen, which ends the other. Both have seen beginnings of one history, so the seat has
    /// then seen the longer.
    pub fn join(&self, seat: &mut TurnSeat<M>, other: TurnSeat<M>)
        requires of_turn { seat.old.turn ≡ self.now }
        requires other_of_turn { other.turn ≡ self.now }
        ensures same_seat { IsSameSeat seat.old seat.new }
        ensures one_history { IsPrefix seat.old.seen seat.new.seen × IsPrefix other.seen seat.new.seen }
        ensures longer { seat.new.seen ≡ longer seat.old.seen other.seen }
        ensures mine { seat.new.mine ≡ seat.old.mine }
        ensures own { seat.new.mine ≡ calls_by seat.new.number seat.new.seen }
        ensures no_look { (seat.new.found ≡ seat.old.found) × (seat.new.looks ≡ seat.old.looks) }
        ensures apart { other.number ≢ seat.old.number }
    {
        let TurnSeat { place } = other;
        self.table
            .shared
            .join_seat::<Meet<M>>(&mut seat.place, place);
        self.table.shared.load::<Compare>(&mut seat.place, 0);
    }

    /// Makes a call, and waits while another seat holds the turn. After an error this call added nothing to the history.
    pub fn call<R: Threads + Wait + Sync, L: Ledger>(
        &self,
        alloc: Global,
        rt: &R,
        seat: &mut TurnSeat<M>,
        call: M::Call,
        steps: &mut Steps<L>,
    ) -> Result<M::Reply, CallFault>
        requires of_turn { seat.old.turn ≡ self.now }
        ensures same_seat { IsSameSeat seat.old seat.new }
        ensures ok { IfOk result (λ reply. HasCalled M.replies seat.old call reply seat.new) }
        ensures own { seat.new.mine ≡ calls_by seat.new.number seat.new.seen }
        ensures err { OnErr result (HasSameHistory seat.old seat.new) }
        ensures looks { seat.old.looks < seat.new.looks }
        ensures worn { (count : ℕ) → (result ≡ Err (call_fault.Worn count)) ↔ ((seat.new.found ≡ 2 * count) × (count ≡ 4611686018427387904)) }
        ensures lean { M.lean call → CallHadMemory result }
    {
        self.call_once(alloc, rt, &mut seat.place, call, steps)
    }

    /// Makes a call, or says that another seat holds the turn. After an error this call added nothing to the history.
    pub fn try_call<R: Threads + Sync, L: Ledger>(
        &self,
        alloc: Global,
        rt: &R,
        seat: &mut TurnSeat<M>,
        call: M::Call,
        steps: &mut Steps<L>,
    ) -> Result<M::Reply, TryFault>
        requires of_turn { seat.old.turn ≡ self.now }
        ensures same_seat { IsSameSeat seat.old seat.new }
        ensures ok { IfOk result (λ reply. HasCalled M.replies seat.old call reply seat.new) }
        ensures own { seat.new.mine ≡ calls_by seat.new.number seat.new.seen }
        ensures err { OnErr result (HasSameHistory seat.old seat.new) }
        ensures looks { seat.new.looks ≡ seat.old.looks + 1 }
        ensures busy { (count : ℕ) → (result ≡ Err (try_fault.Busy count)) ↔ (seat.new.found ≡ 2 * count + 1) }
        ensures worn { (count : ℕ) → (result ≡ Err (try_fault.Worn count)) ↔ ((seat.new.found ≡ 2 * count) × (count ≡ 4611686018427387904)) }
        ensures lean { M.lean call → TryHadMemory result }
    {
        self.try_once(alloc, rt, &mut seat.place, call, steps)
    }

    /// How many calls the history has, by one look at the turn.
    pub fn count(&self, seat: &mut TurnSeat<M>) -> u64
        requires of_turn { seat.old.turn ≡ self.now }
        ensures same_seat { IsSameSeat seat.old seat.new }
        ensures history { HasSameHistory seat.old seat.new }
        ensures looks { seat.new.looks ≡ seat.old.looks + 1 }
        ensures count { result ≡ seat.new.found / 2 }
        ensures seen { length seat.new.seen ≤ result }
    {
        self.table.shared.load::<Look>(&mut seat.place, 0) / 2
    }

    /// Ends a turn, with a seat. Its machine comes back, unless another seat holds the turn.
    pub fn close(self, seat: TurnSeat<M>) -> Closed<M>
        requires of_turn { seat.turn ≡ self }
        ensures left { IsLeft M.stands M.root seat result }
    {
        let TurnSeat { place } = seat;
        let Turn { table } = self;
        let mut closed = table.close_with(place);
        let word = closed.word(0);
        let slot = closed.take(0);
        closed.free();
        if word % 2 == 1 {
            drop(slot);
            return Closed::Held { word };
        }
        Closed::Machine(slot.unwrap())
    }
}

impl<M: Machine> Turn<M> {
    // Makes a call once the turn is free.
    fn call_once<R: Threads + Wait + Sync, L: Ledger>(
        &self,
        alloc: Global,
        rt: &R,
        place: &mut Place<M>,
        call: M::Call,
        steps: &mut Steps<L>,
    ) -> Result<M::Reply, CallFault>
        requires of_turn { place.old.table_id ≡ self.now }
        requires idle { IsIdle place.old.me }
        requires own { KnowsItsCalls place.old.me.0 }
        ensures of_turn { place.new.table_id ≡ place.old.table_id }
        ensures answered { IsAnswered M.replies place.old.me.0 call result place.new.me }
        ensures looks { place.old.me.0.looks < place.new.me.0.looks }
        ensures cause { CallCause result place.new.me.0.found }
        ensures lean { M.lean call → CallHadMemory result }
    {
        let found = self.wait_for_turn(rt, place);
        self.serve(alloc, rt, place, found, call, steps)
    }

    // Makes a call if the turn is free.
    fn try_once<R: Threads + Sync, L: Ledger>(
        &self,
        alloc: Global,
        rt: &R,
        place: &mut Place<M>,
        call: M::Call,
        steps: &mut Steps<L>,
    ) -> Result<M::Reply, TryFault>
        requires of_turn { place.old.table_id ≡ self.now }
        requires idle { IsIdle place.old.me }
        requires own { KnowsItsCalls place.old.me.0 }
        ensures of_turn { place.new.table_id ≡ place.old.table_id }
        ensures answered { IsAnswered M.replies place.old.me.0 call result place.new.me }
        ensures looks { place.new.me.0.looks ≡ place.old.me.0.looks + 1 }
        ensures cause { TryCause result place.new.me.0.found }
        ensures lean { M.lean call → TryHadMemory result }
    {
        let found = self.ask(place);
        if found % 2 == 1 {
            return Err(TryFault::Busy { count: found / 2 });
        }
        match self.serve(alloc, rt, place, found, call, steps) {
            Ok(reply) => Ok(reply),
            Err(CallFault::Worn { count }) => Err(TryFault::Worn { count }),
            Err(CallFault::NoMemory) => Err(TryFault::NoMemory),
        }
    }

    // Asks for the turn until it is free, and says what the word then was.
    fn wait_for_turn<R: Wait>(&self, rt: &R, place: &mut Place<M>) -> u64
        requires of_turn { place.old.table_id ≡ self.now }
        requires idle { IsIdle place.old.me }
        ensures of_turn { place.new.table_id ≡ place.old.table_id }
        ensures holding { IsHolding M.stands M.root place.new.me }
        ensures waited { HasWaited place.old.me.0 place.new.me.0 }
        ensures found { place.new.me.0.found ≡ result }
    {
        for _ in rt.forever() {
            let found = self.ask(place);
            if found % 2 == 0 {
                return found;
            }
            thread::yield_now();
        }
        unreachable!()
    }

    // Asks for the turn once, and says what the word was.
    fn ask(&self, place: &mut Place<M>) -> u64
        requires of_turn { place.old.table_id ≡ self.now }
        requires idle { IsIdle place.old.me }
        ensures of_turn { place.new.table_id ≡ place.old.table_id }
        ensures asked { Asks M.stands M.root place.old.me result place.new.me }
    {
        self.table.shared.fetch_or::<Ask<M>>(place, 0, 1)
    }

    // Makes a call with the turn, whose word was found, and gives the turn back.
    fn serve<R: Threads + Sync, L: Ledger>(
        &self,
        alloc: Global,
        rt: &R,
        place: &mut Place<M>,
        found: u64,
        call: M::Call,
        steps: &mut Steps<L>,
    ) -> Result<M::Reply, CallFault>
        requires of_turn { place.old.table_id ≡ self.now }
        requires holding { IsHolding M.stands M.root place.old.me }
        requires found { place.old.me.0.found ≡ found }
        ensures of_turn { place.new.table_id ≡ place.old.table_id }
        ensures served { IsServed M.replies place.old.me.0 call result place.new.me }
        ensures cause { CallCause result found }
        ensures lean { M.lean call → CallHadMemory result }
    {
        if found / 2 >= MOST_CALLS {
            self.release(place);
            return Err(CallFault::Worn { count: found / 2 });
        }
        match self.work::<Brand, R, L>(alloc, rt, place, call, steps) {
            Ok(reply) => Ok(reply),
            Err(NoMemory) => Err(CallFault::NoMemory),
        }
    }

    // Lets the machine answer a call, and gives the turn back.
    fn work<W: Asked<M::Call>, R: Threads + Sync, L: Ledger>(
        &self,
        alloc: Global,
        rt: &R,
        place: &mut Place<M>,
        call: M::Call,
        steps: &mut Steps<L>,
    ) -> Result<M::Reply, NoMemory>
        requires asked { W.asked ≡ Some call }
        requires of_turn { place.old.table_id ≡ self.now }
        requires holding { IsHolding M.stands M.root place.old.me }
        requires room { length place.old.me.0.kept < 4611686018427387904 }
        ensures of_turn { place.new.table_id ≡ place.old.table_id }
        ensures served { IsServed M.replies place.old.me.0 call result place.new.me }
        ensures lean { M.lean call → IsOk result }
    {
        let shared = &self.table.shared;
        let mut machine = shared.exchange(place, 0, None).unwrap();
        match machine.step(alloc, rt, call, steps) {
            Ok(reply) => {
                drop(shared.exchange(place, 0, Some(machine)));
                shared.fetch_add::<Add<W>>(place, 0, 1);
                Ok(reply)
            }
            Err(refused) => {
                drop(shared.exchange(place, 0, Some(machine)));
                self.release(place);
                Err(refused)
            }
        }
    }

    // Gives the turn back with no call more.
    fn release(&self, place: &mut Place<M>)
        requires of_turn { place.old.table_id ≡ self.now }
        requires holding { IsHolding M.stands M.root place.old.me }
        ensures of_turn { place.new.table_id ≡ place.old.table_id }
        ensures released { place.new.me ≡ (released place.old.me.0, []) }
    {
        self.table.shared.fetch_sub::<Release>(place, 0, 1);
    }
}

// A token that knows the machine's root.
fn root_token<M: Machine>(alloc: Global, machine: &M) -> Result<RootToken<M>, NoMemory>
    ensures { IfOk result (λ token. token.me.0 ≡ M.root machine.now) }
{
    let (_table, token) = Table::<(), M::Root, M, RootOf<M>, Global>::of_words(
        alloc,
        &[],
        machine,
    )?;
    Ok(token)
}
