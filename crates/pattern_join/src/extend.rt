//! Rows extended by a triple that fits a triple pattern.
ghost use Rattle.std.specs.Prelude.{◌≡◌, IfOk};
ghost use Rattle.sparql_algebra.specs.Valid.{HasNamedPlace, HasNamedTriple};
ghost use Rattle.pattern_join.specs.Search.{id_extended_at, id_extended_by};

use m3_terms::{NoMemory, TermId};
use sparql_algebra::{Mapping, PatternTriple, Place};
use triple_index::IdTriple;

// The row in which the variables of the pattern are bound to the numbers of the triple as well, or `None` where one
// would be bound to two numbers. Terms of the pattern are not compared.
pub(crate) fn extended(
    row: &Mapping,
    pattern: &PatternTriple,
    triple: &IdTriple,
) -> Result<Option<Mapping>, NoMemory>
    requires { HasNamedTriple 16 pattern.now }
    ensures { IfOk result (λ next. next ≡ id_extended_by pattern.now triple.now row.now) }
{
    let Some(row) = extended_at(row.copy()?, &pattern.subject, triple.subject)? else {
        return Ok(None);
    };
    let Some(row) = extended_at(row, &pattern.predicate, triple.predicate)? else {
        return Ok(None);
    };
    extended_at(row, &pattern.object, triple.object)
}

// The same for one position.
fn extended_at(mut row: Mapping, place: &Place, id: TermId) -> Result<Option<Mapping>, NoMemory>
    requires { HasNamedPlace 16 place.now }
    ensures { IfOk result (λ next. next ≡ id_extended_at place.now id row) }
{
    match place {
        Place::Is(_) => Ok(Some(row)),
        Place::Var(var) => match row.get(*var) {
            None => {
                row.bind(*var, id)?;
                Ok(Some(row))
            }
            Some(bound) => Ok((bound.0 == id.0).then_some(row)),
        },
    }
}
