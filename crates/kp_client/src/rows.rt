//! The first row of one answer that another has, or lacks.
ghost use Rattle.std.specs.Prelude.{◌≡◌, not, IfOk, option_copied};
ghost use Rattle.std.specs.List.{find};
ghost use Rattle.std.specs.Option.{option_map};
ghost use Rattle.std.specs.List.Sorted.{IsStrictlySortedBy};
ghost use Rattle.answer_bodies.specs.Differences.{IsInOrder, HaveOneForm};
ghost use Rattle.answer_bodies.specs.Lists.{is_among as among};
ghost use Rattle.kp_client.specs.Mirroring.{triple_row as row_of_triple, first_missing as missing_of, first_present as present_of};

use answer_bodies::Answer;
use m3_terms::{NoMemory, Row, Term, Triple};
use std::alloc::Global;

/// Whether an item is among items in order.
fn is_among<T: Ord>(items: &[T], item: &T) -> bool
    requires { IsStrictlySortedBy T.cmp items.now }
    ensures { result ≡ among T.cmp items.now item.now }
{
    items.binary_search(item).is_ok()
}

/// The first of some items that is not among others, which are in order.
fn lacked<'a, T: Ord>(items: &[T], others: &'a [T]) -> Option<&'a T>
    requires { IsStrictlySortedBy T.cmp items.now }
    ensures { option_copied result ≡ find (λ item. not (among T.cmp items.now item)) others.now }
{
    others.iter().find(|item| !is_among(items, item))
}

/// The first of some items that is among others, which are in order.
fn shared<'a, T: Ord>(items: &[T], others: &'a [T]) -> Option<&'a T>
    requires { IsStrictlySortedBy T.cmp items.now }
    ensures { option_copied result ≡ find (λ item. among T.cmp items.now item) others.now }
{
    others.iter().find(|item| is_among(items, item))
}

fn copied_cell(cell: &Option<Term>) -> Result<Option<Term>, NoMemory>
    ensures { IfOk result (λ copied. copied ≡ cell.now) }
{
    match cell {
        Some(term) => Ok(Some(term.copy()?)),
        None => Ok(None),
    }
}

fn copied(alloc: Global, row: &Row) -> Result<Row, NoMemory>
    ensures { IfOk result (λ copied. copied ≡ row.now) }
{
    let mut copied = Row::new(alloc);
    for cell in row.as_slice() {
        copied.push(copied_cell(cell)?)?;
    }
    Ok(copied)
}

fn triple_row(alloc: Global, triple: &Triple) -> Result<Row, NoMemory>
    ensures { IfOk result (λ row. row ≡ row_of_triple triple.now) }
{
    let mut row = Row::new(alloc);
    row.push(Some(triple.subject.copy()?))?;
    row.push(Some(triple.predicate.copy()?))?;
    row.push(Some(triple.object.copy()?))?;
    Ok(row)
}

fn row_of_found_triple(alloc: Global, found: Option<&Triple>) -> Result<Option<Row>, NoMemory>
    ensures { IfOk result (λ row. row ≡ option_map row_of_triple (option_copied found.entry)) }
{
    match found {
        Some(triple) => Ok(Some(triple_row(alloc, triple)?)),
        None => Ok(None),
    }
}

fn row_of_found(alloc: Global, found: Option<&Row>) -> Result<Option<Row>, NoMemory>
    ensures { IfOk result (λ row. row ≡ option_copied found.entry) }
{
    match found {
        Some(row) => Ok(Some(copied(alloc, row)?)),
        None => Ok(None),
    }
}

/// The first row of some rows that an answer in order, which has their form, lacks.
pub fn first_missing(alloc: Global, answer: &Answer, rows: &Answer) -> Result<Option<Row>, NoMemory>
    requires order { IsInOrder answer.now }
    requires form { HaveOneForm answer.now rows.now }
    ensures { IfOk result (λ row. row ≡ missing_of answer.now rows.now) }
{
    match (answer, rows) {
        (Answer::Triples(triples), Answer::Triples(others)) => {
            row_of_found_triple(alloc, lacked(triples.as_slice(), others.as_slice()))
        }
        (Answer::Table { rows: mine, .. }, Answer::Table { rows: others, .. }) => {
            row_of_found(alloc, lacked(mine.as_slice(), others.as_slice()))
        }
        _ => unreachable!(),
    }
}

/// The first row of some rows that an answer in order, which has their form, has.
pub fn first_present(alloc: Global, answer: &Answer, rows: &Answer) -> Result<Option<Row>, NoMemory>
    requires order { IsInOrder answer.now }
    requires form { HaveOneForm answer.now rows.now }
    ensures { IfOk result (λ row. row ≡ present_of answer.now rows.now) }
{
    match (answer, rows) {
        (Answer::Triples(triples), Answer::Triples(others)) => {
            row_of_found_triple(alloc, shared(triples.as_slice(), others.as_slice()))
        }
        (Answer::Table { rows: mine, .. }, Answer::Table { rows: others, .. }) => {
            row_of_found(alloc, shared(mine.as_slice(), others.as_slice()))
        }
        _ => unreachable!(),
    }
}
