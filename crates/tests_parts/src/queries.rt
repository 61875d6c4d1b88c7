//! Answers to queries.
ghost use Rattle.std.specs.Prelude.{◌≡◌, ◌<◌};

use crate::index::{index_of, triples};
use crate::joins::{are_meant, uris};
use m3_intern::Interner;
use m3_terms::{Columns, Steps};
use query_eval::answer;
use sparql_algebra::{Algebra, Mapping, PatternList, Query, VarList};
use std::alloc::Global;
use std::marker::Brand;
use std::sync::ledger::{Blank, Ledger};
use std::test::Fail;
use triple_index::View;

// The answer to the query of no columns and no patterns over the triple (0 1 0): whether it is the one empty row.
fn has_one_empty_row<L: Ledger>(
    alloc: Global,
    table: &Interner,
    steps: &mut Steps<L>,
) -> Result<bool, Fail> {
    let query = Query {
        names: Columns::new(alloc),
        columns: VarList::new(alloc),
        pattern: Algebra::Bgp(PatternList::new(alloc)),
    };
    let index = index_of(alloc, &triples(alloc, &[[0, 1, 0]])?, steps)?;
    let view: View<'_, L> = View::plain(&index);
    if !are_meant(&view, table, steps) {
        return Ok(false);
    }
    let Ok(rows) = answer(alloc, &view, table, &query, steps) else {
        return Ok(false);
    };
    Ok(rows.len() == 1 && rows.contains(&Mapping::new(alloc)))
}

fn of_two_uris<L: Ledger>(alloc: Global, blank: Blank) -> Result<bool, Fail>
    requires name { blank.name ≡ L.name }
    requires parts { blank.parts ≡ L.parts }
    requires some { 0 < L.parts }
{
    let table = uris(alloc, &[b"a", b"b"])?;
    let mut steps = Steps::<L>::new(blank);
    has_one_empty_row(alloc, &table, &mut steps)
}

#[test]
fn a_query_without_patterns_has_one_empty_row(rt: HostRuntime) -> Result<(), Fail> {
    let found = of_two_uris::<Brand>(rt.alloc(), Blank::new(1))?;
    assert!(rt; found);
    Ok(())
}
