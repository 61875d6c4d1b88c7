//! Triples as rows.
ghost use Rattle.std.specs.Prelude.{◌≡◌, ◌++◌, ◌∷◌, [], Contains, IfOk, OnOk, map};
ghost use Rattle.triple_index.specs.Changes.{AreOrdered};
ghost use Rattle.pattern_join.specs.Rows.{row};

use m3_terms::NoMemory;
use sparql_algebra::IdRows;
use std::alloc::Global;
use triple_index::{IdTriple, IdTriples};

// Appends the row of a triple, which isn't here.
fn add(alloc: Global, rows: &mut IdRows, triple: &IdTriple) -> Result<(), NoMemory>
    requires { Contains rows.old.rows (row triple.now) → ⊥ }
    ensures { OnOk result (rows.new.rows ≡ rows.old.rows ++ row triple.now ∷ []) }
{
    rows.add_three(alloc, triple.subject, triple.predicate, triple.object)
}

/// The row of each triple, whose variables 0, 1 and 2 have the numbers of its subject, its predicate and its object.
pub fn rows_of(alloc: Global, triples: &IdTriples) -> Result<IdRows, NoMemory>
    requires { AreOrdered triples.now }
    ensures { IfOk result (λ rows. rows.rows ≡ map row triples.now) }
{
    let mut rows = IdRows::new(alloc);
    for triple in triples.as_slice() {
        add(alloc, &mut rows, triple)?;
    }
    Ok(rows)
}
