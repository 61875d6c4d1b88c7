use crate::changed::Changed;
use sparql_algebra::IdRows;
use std::marker::Model;

/// What a change of the graph makes of a standing query. It brings the memory of its rows.
#[derive(Drop)]
pub struct Step {
    pub(crate) parts: Vec<Changed>,
    pub(crate) answer: Changed,
}

impl Model for Step {
    ghost use Rattle.delta_eval.specs.Standing.{Changes};

    ghost Value = { Changes };

    ghost view = { λ step. record { parts = step.parts.items; answer = step.answer } };
}

impl Step {
    ghost use Rattle.std.specs.Prelude.{◌≡◌};

    /// The rows that come to the answer, each once, in any order.
    pub fn new_rows(&self) -> &IdRows
        ensures { result.now ≡ self.now.answer.added }
    {
        &self.answer.added
    }

    /// The rows that leave the answer, each once, in any order.
    pub fn obsolete_rows(&self) -> &IdRows
        ensures { result.now ≡ self.now.answer.obsolete }
    {
        &self.answer.obsolete
    }
}
