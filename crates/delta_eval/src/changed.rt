//! Changes of lists of distinct rows.
ghost use Rattle.std.specs.Prelude.{◌≡◌, [], IfOk};
ghost use Rattle.sparql_algebra.specs.RowSets.{AreExactly};
ghost use Rattle.delta_eval.specs.Changed.{IsOfOnly, IsDifference};

use m3_terms::NoMemory;
use sparql_algebra::IdRows;
use std::alloc::Global;

// The rows that are added to a list, and those that are obsolete.
#[derive(Drop)]
pub(crate) struct Changed {
    pub(crate) added: IdRows,
    pub(crate) obsolete: IdRows,
}

impl Changed {
    // The difference of two lists. Most updates leave most answers as they are, so equal lists are passed over at once.
    pub(crate) fn between(alloc: Global, old: &IdRows, new: &IdRows) -> Result<Changed, NoMemory>
        ensures { IfOk result (λ change. IsDifference old.now change new.now) }
    {
        if old.as_slice() == new.as_slice() {
            return Ok(Changed::none(alloc));
        }
        Ok(Changed {
            added: only(alloc, new, old)?,
            obsolete: only(alloc, old, new)?,
        })
    }

    // No change.
    fn none(alloc: Global) -> Changed
        ensures added { result.added.rows ≡ [] }
        ensures obsolete { result.obsolete.rows ≡ [] }
    {
        Changed {
            added: IdRows::new(alloc),
            obsolete: IdRows::new(alloc),
        }
    }
}

// The rows that are not among others.
fn only(alloc: Global, rows: &IdRows, others: &IdRows) -> Result<IdRows, NoMemory>
    ensures { IfOk result (λ rest. AreExactly (IsOfOnly rows.now.rows others.now.rows) rest.rows) }
{
    let mut rest = IdRows::new(alloc);
    for row in rows.as_slice() {
        if !others.contains(row) {
            rest.add(row.copy()?)?;
        }
    }
    Ok(rest)
}
