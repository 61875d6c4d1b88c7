//! How an answer differs from an earlier one.
ghost use Rattle.std.specs.Prelude.{◌≡◌, IfOk};
ghost use Rattle.std.specs.List.Sorted.{IsStrictlySortedBy};
ghost use Rattle.answer_bodies.specs.Lists.{without};
ghost use Rattle.answer_bodies.specs.Differences.{HaveOneForm, IsInOrder, MayFollow, without_rows, difference_of};

use crate::item::Item;
use crate::lists::is_among;
use crate::write::copied;
use crate::{Answer, Difference};
use m3_terms::{Items, NoMemory};
use std::alloc::Global;

/// Copies of the items that are not among others, which are in order.
fn missing<T: Item>(alloc: Global, items: &[T], others: &[T]) -> Result<Items<T>, NoMemory>
    requires { IsStrictlySortedBy T.cmp others.now }
    ensures { IfOk result (λ missing. missing ≡ without T.cmp items.now others.now) }
{
    let mut missing = Items::new(alloc);
    for item in items {
        if !is_among(others, item) {
            missing.push(item.copied(alloc)?)?;
        }
    }
    Ok(missing)
}

/// A copy of an answer without what is among another of its form.
fn rest(alloc: Global, answer: &Answer, other: &Answer) -> Result<Answer, NoMemory>
    requires form { HaveOneForm answer.now other.now }
    requires order { IsInOrder other.now }
    ensures { IfOk result (λ rest. rest ≡ without_rows answer.now other.now) }
{
    match (answer, other) {
        (Answer::Triples(triples), Answer::Triples(others)) => {
            Ok(Answer::Triples(missing(alloc, triples.as_slice(), others.as_slice())?))
        }
        (Answer::Table { columns, rows }, Answer::Table { rows: others, .. }) => {
            Ok(Answer::Table {
                columns: copied(alloc, columns)?,
                rows: missing(alloc, rows.as_slice(), others.as_slice())?,
            })
        }
        _ => unreachable!(),
    }
}

/// How an answer differs from an earlier one of its form.
pub fn difference(alloc: Global, before: &Answer, after: &Answer) -> Result<Difference, NoMemory>
    requires { MayFollow before.now after.now }
    ensures { IfOk result (λ found. found ≡ difference_of before.now after.now) }
{
    Ok(Difference {
        added: rest(alloc, after, before)?,
        obsolete: rest(alloc, before, after)?,
    })
}
