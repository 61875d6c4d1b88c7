//! Rows taken off what is left of the limit on the width.
ghost use Rattle.std.specs.Prelude.{◌≡◌, ◌+◌, ◌≤◌, length};
ghost use Rattle.std.specs.List.{IsDistinct};
ghost use Rattle.sparql_algebra.specs.Solutions.{solution_eq, AreRising};

use sparql_algebra::IdRows;

// The same rows, whose number is taken off the room.
pub(crate) fn taken(rows: IdRows, room: &mut usize) -> IdRows
    requires { length rows.rows ≤ room.old }
    ensures same { result ≡ rows }
    ensures room { room.new + length rows.rows ≡ room.old }
    ensures distinct { IsDistinct solution_eq rows.rows }
    ensures rising { AreRising rows.rows }
{
    let count = rows.as_slice().len();
    *room -= count;
    rows
}
