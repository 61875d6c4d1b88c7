//! Lists of rows, one for each part of a pattern.
ghost use Rattle.std.specs.Prelude.{◌≡◌, ◌<◌, ◌++◌, ◌∷◌, IfOk, length};
ghost use Rattle.query_eval.specs.Parts.{first_rows};

use m3_terms::NoMemory;
use sparql_algebra::IdRows;

// The rows of the whole of what has these parts.
pub(crate) fn first(lists: &Vec<IdRows>) -> &IdRows
    requires { 0 < length lists.now.items }
    ensures { result.now.rows ≡ first_rows lists.now.items }
{
    &lists[0]
}

// The rows of a part, and behind them those of its side's parts.
pub(crate) fn with_side(rows: IdRows, side: Vec<IdRows>) -> Result<Vec<IdRows>, NoMemory>
    ensures { IfOk result (λ lists. lists.items ≡ rows ∷ side.items) }
{
    let mut lists = side;
    lists.insert(0, rows)?;
    Ok(lists)
}

// The rows of a part, and behind them those of its left side's parts and those of its right side's.
pub(crate) fn with_sides(
    rows: IdRows,
    left: Vec<IdRows>,
    right: Vec<IdRows>,
) -> Result<Vec<IdRows>, NoMemory>
    ensures { IfOk result (λ lists. lists.items ≡ rows ∷ (left.items ++ right.items)) }
{
    let mut sides = left;
    let mut more = right;
    sides.append(&mut more)?;
    with_side(rows, sides)
}
