//! A seat of a turn.
use crate::machine::Machine;
use crate::plays::Place;
use std::marker::Model;

/// A seat of one turn, by which a thread calls the machine. It takes no bytes.
#[derive(Drop)]
pub struct TurnSeat<M: Machine> {
    pub(crate) place: Place<M>,
}

impl<M: Machine> Model for TurnSeat<M> {
    ghost use Rattle.std.specs.Prelude.{◌≡◌, true, false, []};
    ghost use Rattle.space_turn.specs.Sights.{Sight};
    ghost use Rattle.space_turn.specs.Rule.{KnowsItsCalls};

    ghost Value = { Sight M.Call M.Root };

    ghost view = { λ s. record { turn = s.place.table_id; root = s.place.me.0.root; number = s.place.me.0.number; seen = s.place.me.0.seen; mine = s.place.me.0.mine; found = s.place.me.0.found; looks = s.place.me.0.looks } };

    ghost invariant = { λ s. (s.place.me.1 ≡ []) × (s.place.me.0.live ≡ true) × (s.place.me.0.holds ≡ false) × KnowsItsCalls s.place.me.0 };
}
