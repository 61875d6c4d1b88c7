//! A change made to a list of rows, without memory.
ghost use Rattle.std.specs.Prelude.{◌≤◌, Contains, List, length};
ghost use Rattle.sparql_algebra.specs.declared.mapping.Binding.{Binding};
ghost use Rattle.sparql_algebra.specs.RowSets.{AreExactly, IsOfEither};
ghost use Rattle.delta_eval.specs.Changed.{IsOfOnly, IsChangeOf, HasRoomFor, LeadsTo};

use crate::changed::Changed;
use sparql_algebra::IdRows;

// Makes a change: what is obsolete goes, and then what is added comes.
pub(crate) fn apply(rows: &mut IdRows, change: Changed)
    requires change { IsChangeOf rows.old change }
    requires room { HasRoomFor rows.old change }
    ensures { LeadsTo rows.old change rows.new }
{
    take_out(rows, &change.obsolete);
    put_in(rows, change.added);
}

// Takes some of the rows out.
fn take_out(rows: &mut IdRows, obsolete: &IdRows)
    requires { (row : List Binding) → Contains obsolete.now.rows row → Contains rows.old.rows row }
    ensures rows { AreExactly (IsOfOnly rows.old.rows obsolete.now.rows) rows.new.rows }
    ensures room { rows.old.room ≤ rows.new.room }
{
    for row in obsolete.as_slice() {
        rows.remove(row);
    }
}

// Moves rows that are not here to the end.
fn put_in(rows: &mut IdRows, mut added: IdRows)
    requires new { (row : List Binding) → Contains added.rows row → Contains rows.old.rows row → ⊥ }
    requires room { length added.rows ≤ rows.old.room }
    ensures { AreExactly (IsOfEither added.rows rows.old.rows) rows.new.rows }
{
    while let Some(row) = added.pop() {
        let Ok(()) = rows.add(row) else {
            unreachable!()
        };
    }
}
