//! Masks of triple patterns.
ghost use Rattle.m3_terms.specs.TermTable.{NamesOnce};
ghost use Rattle.sparql_algebra.specs.Merged.{IsRising};
ghost use Rattle.sparql_algebra.specs.TermSolutions.{id_var, HasTerms};
ghost use Rattle.pattern_join.specs.Search.{IsMask, IsMaskPlace};

use m3_terms::{TermId, TermTable};
use sparql_algebra::{Mapping, PatternTriple, Place};
use triple_index::IdPattern;

// The mask of a triple pattern into which a row is put, or `None` where a term of the pattern has no number, so that no
// triple fits.
pub(crate) fn mask_of<T: TermTable>(
    pattern: &PatternTriple,
    row: &Mapping,
    table: &T,
) -> Option<IdPattern>
    requires rising { IsRising id_var row.now }
    requires named { HasTerms (T.terms table.now) row.now }
    requires once { NamesOnce (T.terms table.now) }
    ensures { IsMask (T.terms table.now) row.now pattern.now result }
{
    let subject = place_of(&pattern.subject, row, table)?;
    let predicate = place_of(&pattern.predicate, row, table)?;
    let object = place_of(&pattern.object, row, table)?;
    Some(IdPattern {
        subject,
        predicate,
        object,
    })
}

// What the mask has in a position, or `None` where a term there has no number.
fn place_of<T: TermTable>(place: &Place, row: &Mapping, table: &T) -> Option<Option<TermId>>
    requires rising { IsRising id_var row.now }
    requires named { HasTerms (T.terms table.now) row.now }
    requires once { NamesOnce (T.terms table.now) }
    ensures { IsMaskPlace (T.terms table.now) row.now place.now result }
{
    match place {
        Place::Var(var) => Some(row.get(*var)),
        Place::Is(term) => {
            let id = table.id_of(term)?;
            Some(Some(id))
        }
    }
}
