//! A space that threads share.
ghost use Rattle.std.specs.Prelude.{◌≡◌, [], IfOk, vec_len};
ghost use Rattle.space_turn.specs.Sights.{IsLeft};
ghost use Rattle.session_core.specs.Runs.{StandsFor};
ghost use Rattle.session_core.specs.Space.{State};

use crate::bell::Bell;
use m3_terms::NoMemory;
use session_core::{Core, Ring};
use space_turn::{Closed, Turn, TurnSeat};
use std::alloc::Global;
use std::marker::Model;
use std::sync::Wait;

/// How many bells there are. Link L waits at the bell L mod `BELLS`.
const BELLS: usize = 256;

/// A space that threads share: the turn over it, and the bells at which those wait who write its messages out.
#[derive(Drop)]
pub struct Space {
    turn: Turn<Core>,
    bells: Vec<Bell>,
}

impl Model for Space {
    ghost use Rattle.std.specs.Prelude.{◌≡◌, vec_len};
    ghost use Rattle.atomic_table.specs.Seated.{TableId, table_id_coded};

    ghost Value = { TableId };

    ghost coded = { table_id_coded };

    ghost view = { λ s. s.turn };

    ghost invariant = { λ s. vec_len s.bells ≡ 256 };
}

impl Space {
    /// Shares a space in which nothing happened, and gives its first seat.
    pub fn make(alloc: Global, core: Core) -> Result<(Space, TurnSeat<Core>), NoMemory>
        requires empty { StandsFor core.space.name [] core }
        ensures seat { IfOk result (λ made. (made.1.turn ≡ made.0) × (made.1.root ≡ core.space.name) × (made.1.number ≡ 0)) }
        ensures history { IfOk result (λ made. (made.1.seen ≡ []) × (made.1.mine ≡ []) × (made.1.found ≡ 0) × (made.1.looks ≡ 0)) }
    {
        let bells = bells(alloc)?;
        let (turn, seat) = Turn::make(alloc, core)?;
        Ok((Space { turn, bells }, seat))
    }

    /// The turn.
    pub fn turn(&self) -> &Turn<Core>
        ensures { result.now ≡ self.now }
    {
        &self.turn
    }

    /// Rings the bells of links, and so wakes those who wait for messages there. It may wait for the lock of a bell.
    pub fn ring<R: Wait>(&self, rt: &R, ring: &Ring) {
        for at in 0..ring.len() {
            if let Some(link) = ring.get(at) {
                self.bell(*link).ring(rt);
            }
        }
    }

    /// Ends the sharing, with a seat. The space comes back, unless another seat holds the turn.
    pub fn close(self, seat: TurnSeat<Core>) -> Closed<Core>
        requires of_turn { seat.turn ≡ self }
        ensures left { IsLeft (λ (core : State) calls. StandsFor core.space.name calls core) (λ (core : State). core.space.name) seat result }
    {
        let Space { turn, bells } = self;
        drop(bells);
        turn.close(seat)
    }

    /// The bell of a link.
    pub(crate) fn bell(&self, link: u32) -> &Bell {
        &self.bells[link as usize % BELLS]
    }
}

// As many bells as there are.
fn bells(alloc: Global) -> Result<Vec<Bell>, NoMemory>
    ensures { IfOk result (λ bells. vec_len bells ≡ 256) }
{
    let mut bells = Vec::with_capacity(alloc, BELLS)?;
    while bells.len() < BELLS {
        bells.push(Bell::new())?;
    }
    Ok(bells)
}
