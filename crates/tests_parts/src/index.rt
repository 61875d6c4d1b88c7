//! The index of triples, changes of it, and views.
ghost use Rattle.std.specs.Prelude.{◌≡◌, ◌<◌, IfOk};
ghost use Rattle.triple_index.specs.Changes.{IsNet};

use m3_terms::{NoMemory, Steps, TermId};
use std::alloc::Global;
use std::marker::Brand;
use std::process::Abort;
use std::sync::ledger::{Blank, Ledger};
use std::test::Fail;
use triple_index::{Change, IdPattern, IdPatterns, IdTriple, IdTriples, Index, View};

/// A triple or a mask of a table; in a mask, 0 is the wildcard.
pub(crate) type Numbers = [u32; 3];

const SMALL: [Numbers; 3] = [[6, 2, 3], [1, 4, 5], [1, 2, 3]];

/// How many triples of `SMALL` fit a mask.
const FITTING: [(Numbers, usize); 8] = [
    ([1, 0, 0], 2),
    ([0, 2, 0], 2),
    ([0, 0, 3], 2),
    ([6, 0, 3], 1),
    ([1, 4, 0], 1),
    ([1, 4, 5], 1),
    ([9, 0, 0], 0),
    ([0, 0, 0], 3),
];

pub(crate) fn triple(numbers: &Numbers) -> IdTriple {
    IdTriple {
        subject: TermId(numbers[0]),
        predicate: TermId(numbers[1]),
        object: TermId(numbers[2]),
    }
}

fn place(number: u32) -> Option<TermId> {
    if number == 0 {
        None
    } else {
        Some(TermId(number))
    }
}

fn mask(numbers: &Numbers) -> IdPattern {
    IdPattern {
        subject: place(numbers[0]),
        predicate: place(numbers[1]),
        object: place(numbers[2]),
    }
}

pub(crate) fn triples(alloc: Global, table: &[Numbers]) -> Result<IdTriples, NoMemory> {
    let mut triples = IdTriples::new(alloc);
    for numbers in table {
        triples.push(triple(numbers))?;
    }
    Ok(triples)
}

pub(crate) fn masks(alloc: Global, table: &[Numbers]) -> Result<IdPatterns, NoMemory> {
    let mut masks = IdPatterns::new(alloc);
    for numbers in table {
        masks.push(mask(numbers))?;
    }
    Ok(masks)
}

/// The index of these triples.
pub(crate) fn index_of<L: Ledger>(
    alloc: Global,
    triples: &IdTriples,
    steps: &mut Steps<L>,
) -> Result<Index, NoMemory> {
    let mut index = Index::new(alloc);
    let none = IdPatterns::new(alloc);
    let change = Change::net(alloc, &index, &none, triples, steps)?;
    index.reserve(change.inserted().len())?;
    index.apply(&change);
    Ok(index)
}

/// How many rows a view hands out.
fn count_rows<L: Ledger>(view: &View<'_, L>, mask: &IdPattern, steps: &mut Steps<L>) -> u64 {
    let mut rows = view.rows(mask);
    let mut count: u64 = 0;
    while rows.next(steps).is_some() {
        count = count.saturating_add(1);
    }
    count
}

fn rows_fit<L: Ledger>(rt: &impl Abort, alloc: Global, blank: Blank) -> Result<(), NoMemory>
    requires name { blank.name ≡ L.name }
    requires parts { blank.parts ≡ L.parts }
    requires some { 0 < L.parts }
{
    let mut steps = Steps::<L>::new(blank);
    let index = index_of(alloc, &triples(alloc, &SMALL)?, &mut steps)?;
    let view = View::plain(&index);
    for (numbers, count) in &FITTING {
        let seen = count_rows(&view, &mask(numbers), &mut steps);
        assert_eq!(rt; seen, *count as u64);
    }
    Ok(())
}

#[test]
fn hands_out_the_rows_that_fit(rt: HostRuntime) -> Result<(), Fail> {
    rows_fit::<Brand>(&rt, rt.alloc(), Blank::new(1))?;
    Ok(())
}

/// The change that removes what begins with 1, and inserts a triple that is removed and one that is new, twice.
fn exchange<L: Ledger>(
    alloc: Global,
    index: &Index,
    steps: &mut Steps<L>,
) -> Result<Change, NoMemory>
    ensures { IfOk result (IsNet index.now.triples) }
{
    let remove = masks(alloc, &[[1, 0, 0]])?;
    let insert = triples(alloc, &[[3, 7, 7], [1, 2, 3], [3, 7, 7]])?;
    Change::net(alloc, index, &remove, &insert, steps)
}

/// The number of triples, and the subject of the first.
fn outline(triples: &IdTriples) -> (usize, u32) {
    match triples.get(0) {
        Some(triple) => (triples.len(), triple.subject.0),
        None => (0, 0),
    }
}

/// The number of triples, and whether two of them are there: the inserted one and the removed one.
fn outcome(index: &Index) -> (usize, bool, bool) {
    (
        index.len(),
        index.contains(&triple(&[3, 7, 7])),
        index.contains(&triple(&[1, 4, 5])),
    )
}

fn update<L: Ledger>(rt: &impl Abort, alloc: Global, blank: Blank) -> Result<(), NoMemory>
    requires name { blank.name ≡ L.name }
    requires parts { blank.parts ≡ L.parts }
    requires some { 0 < L.parts }
{
    let mut steps = Steps::<L>::new(blank);
    let mut index = index_of(alloc, &triples(alloc, &SMALL)?, &mut steps)?;
    let change = exchange(alloc, &index, &mut steps)?;
    assert_eq!(rt; outline(change.removed()), (1, 1));
    assert_eq!(rt; outline(change.inserted()), (1, 3));
    let after = View::after(&index, &change);
    let seen = count_rows(&after, &mask(&[0, 0, 0]), &mut steps);
    assert_eq!(rt; seen, 3);
    index.reserve(change.inserted().len())?;
    index.apply(&change);
    assert_eq!(rt; outcome(&index), (3, true, false));
    Ok(())
}

#[test]
fn changes_in_one_step(rt: HostRuntime) -> Result<(), Fail> {
    update::<Brand>(&rt, rt.alloc(), Blank::new(1))?;
    Ok(())
}
