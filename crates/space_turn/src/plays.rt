//! The rule of a turn, and what each kind of step tells.
ghost use Rattle.std.specs.Prelude.{Option, None, ◌+◌};
ghost use Rattle.space_turn.specs.Rule.{Kept};
ghost use Rattle.space_turn.specs.Steps.{newcomer, spent_seat, parted, split_from, meeting, Looks, Asks, Adds, Releases, Meets};

use crate::machine::Machine;
use crate::view::View;
use atomic_table::{Join, Play, Seat, Split, TableRule};
use std::marker::{Brand, PhantomData};

/// A seat's view over the machine `M`.
pub(crate) type ViewOf<M> = View<<M as Machine>::Call, <M as Machine>::Root>;

/// A seat at the table of a turn over the machine `M`.
pub(crate) type Place<M> = Seat<Option<M>, ViewOf<M>>;

/// A token that knows a machine's root.
pub(crate) type RootToken<M> = Seat<(), <M as Machine>::Root>;

/// The rule of a table that is made for a `RootToken`.
pub struct RootOf<M> {
    marker: PhantomData<M>,
}

impl<M: Machine> TableRule<(), M::Root, M> for RootOf<M> {
    ghost holds = { λ _ _. Unit {0} };

    ghost first = { λ machine. M.root machine };
}

/// The rule of a turn.
pub struct Law<M> {
    marker: PhantomData<M>,
}

impl<M: Machine> TableRule<Option<M>, View<M::Call, M::Root>, Seat<(), M::Root>> for Law<M> {
    ghost holds = { λ token. Kept M.stands M.root token.me.0 };

    ghost first = { λ token. newcomer token.me.0 };
}

/// The call that a seat makes, for the proof alone. A call at `Brand` picks it.
pub(crate) trait Asked<C> {
    ghost asked: { Option C };
}

impl<C> Asked<C> for Brand {
    ghost asked = { None };
}

/// A load of the word.
pub struct Look;

impl<M, C, X> Play<Option<M>, View<C, X>> for Look {
    ghost then = { λ _. Looks };
}

/// The turn is asked for.
pub struct Ask<M> {
    marker: PhantomData<M>,
}

impl<M: Machine> Play<Option<M>, View<M::Call, M::Root>> for Ask<M> {
    ghost then = { λ _. Asks M.stands M.root };
}

/// The turn is given back with the call.
pub struct Add<W> {
    marker: PhantomData<W>,
}

impl<M, C, X, W: Asked<C>> Play<Option<M>, View<C, X>> for Add<W> {
    ghost then = { λ _. Adds W.asked };
}

/// The turn is given back as it was.
pub struct Release;

impl<M, C, X> Play<Option<M>, View<C, X>> for Release {
    ghost then = { λ _. Releases };
}

/// A seat is split from another, with the next number that the other owns.
pub struct Part;

impl<C, X> Split<View<C, X>> for Part {
    ghost left = { parted };

    ghost right = { λ v. split_from v (v.number + v.stride) };
}

/// A seat is joined to another, which is told what it has seen.
pub struct Meet<M> {
    marker: PhantomData<M>,
}

impl<M: Machine> Join<View<M::Call, M::Root>> for Meet<M> {
    ghost both = { λ v w. meeting v w.seen w.number };

    ghost spent = { spent_seat M.some_root };
}

/// What was told is compared with what was seen.
pub struct Compare;

impl<M, C, X> Play<Option<M>, View<C, X>> for Compare {
    ghost then = { λ _. Meets };
}
