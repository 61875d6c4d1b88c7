//! Standing queries that follow a graph.
ghost use Rattle.std.specs.Prelude.{◌≡◌, ◌<◌};
ghost use Rattle.delta_eval.specs.Wanted.{MayBeWanted};

use crate::index::{index_of, masks, triples};
use crate::joins::{are_meant, uris};
use delta_eval::{Standing, Wanted};
use m3_intern::Interner;
use m3_terms::Steps;
use sparql_read::read_query;
use std::alloc::Global;
use std::marker::Brand;
use std::sync::ledger::{Blank, Ledger};
use std::test::Fail;
use triple_index::{Change, View};

// How many rows a standing query has over the triple (1 2 3), how many come and go where (1 4 3) takes its place or stands beside it, and
// how many it has then. `None` where it is refused.
fn follow<L: Ledger>(
    alloc: Global,
    table: &Interner,
    wanted: Wanted,
    goes: &[[u32; 3]],
    steps: &mut Steps<L>,
) -> Result<Option<[usize; 4]>, Fail>
    requires { MayBeWanted wanted }
{
    let index = index_of(alloc, &triples(alloc, &[[1, 2, 3]])?, steps)?;
    let old: View<'_, L> = View::plain(&index);
    if !are_meant(&old, table, steps) {
        return Ok(None);
    }
    let Ok(mut standing) = Standing::start(alloc, &old, table, wanted, steps) else {
        return Ok(None);
    };
    let first = standing.answer().len();
    let insert = triples(alloc, &[[1, 4, 3]])?;
    let change = Change::net(alloc, &index, &masks(alloc, goes)?, &insert, steps)?;
    let new: View<'_, L> = View::after(&index, &change);
    if !are_meant(&new, table, steps) {
        return Ok(None);
    }
    let Ok(step) = standing.prepare(alloc, &old, &new, table, &change, steps) else {
        return Ok(None);
    };
    let (added, obsolete) = (step.new_rows().len(), step.obsolete_rows().len());
    standing.reserve(&step)?;
    standing.commit(step);
    Ok(Some([first, added, obsolete, standing.answer().len()]))
}

// A door with a state gets a reading, which OPTIONAL waits for: the row without it is obsolete, and one with it is new.
fn with_reading<L: Ledger>(alloc: Global, blank: Blank) -> Result<Option<[usize; 4]>, Fail>
    requires name { blank.name ≡ L.name }
    requires parts { blank.parts ≡ L.parts }
    requires some { 0 < L.parts }
{
    let table = uris(alloc, &[b"0", b"door", b"state", b"open", b"reading"])?;
    let text = b"SELECT DISTINCT ?d ?r { ?d <state> ?s OPTIONAL { ?d <reading> ?r } }";
    let Ok(query) = read_query(alloc, text) else {
        return Ok(None);
    };
    let mut steps = Steps::<L>::new(blank);
    follow(alloc, &table, Wanted::Select(query), &[], &mut steps)
}

// A template for everything: one triple takes the place of the other.
fn of_all<L: Ledger>(alloc: Global, blank: Blank) -> Result<Option<[usize; 4]>, Fail>
    requires name { blank.name ≡ L.name }
    requires parts { blank.parts ≡ L.parts }
    requires some { 0 < L.parts }
{
    let table = uris(alloc, &[b"0", b"door", b"state", b"open", b"reading"])?;
    let wanted = Wanted::Templates(masks(alloc, &[[0, 0, 0]])?);
    let mut steps = Steps::<L>::new(blank);
    follow(alloc, &table, wanted, &[[1, 2, 0]], &mut steps)
}

#[test]
fn a_reading_that_comes_makes_the_row_without_it_obsolete(rt: HostRuntime) -> Result<(), Fail> {
    assert_eq!(rt;
        with_reading::<Brand>(rt.alloc(), Blank::new(1))?,
        Some([1, 1, 1, 1])
    );
    Ok(())
}

#[test]
fn a_template_follows_an_exchange(rt: HostRuntime) -> Result<(), Fail> {
    assert_eq!(rt;
        of_all::<Brand>(rt.alloc(), Blank::new(1))?,
        Some([1, 1, 1, 1])
    );
    Ok(())
}
