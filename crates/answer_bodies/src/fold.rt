//! An answer after a difference.
ghost use Rattle.std.specs.Prelude.{◌≡◌, IfOk, OnOk, OnErr};
ghost use Rattle.std.specs.List.Sorted.{IsStrictlySortedBy};
ghost use Rattle.answer_bodies.specs.Lists.{without, with_all};
ghost use Rattle.answer_bodies.specs.Differences.{IsInOrder, Fits, folded};

use crate::item::Item;
use crate::lists::is_among;
use crate::{Answer, Difference};
use m3_terms::{Items, NoMemory};
use std::alloc::Global;
use std::mem;

/// Copies of the items, in their order.
fn copies<T: Item>(alloc: Global, items: &[T]) -> Result<Vec<T>, NoMemory>
    ensures { IfOk result (λ copies. copies.items ≡ items.now) }
{
    let mut copies = Vec::new(alloc);
    for item in items {
        copies.push(item.copied(alloc)?)?;
    }
    Ok(copies)
}

/// Takes the obsolete items away, and then puts copies of the added ones in their places. What needs memory comes first,
/// so after `NoMemory` the items are unchanged.
fn fold_items<T: Item>(
    alloc: Global,
    items: &mut Items<T>,
    obsolete: &[T],
    added: &[T],
) -> Result<(), NoMemory>
    requires items_order { IsStrictlySortedBy T.cmp items.old }
    requires obsolete_order { IsStrictlySortedBy T.cmp obsolete.now }
    ensures ok { OnOk result (items.new ≡ with_all T.cmp (without T.cmp items.old obsolete.now) added.now) }
    ensures err { OnErr result (items.new ≡ items.old) }
{
    let mut folded = copies(alloc, added)?;
    folded.reserve(items.len())?;
    let mut kept = mem::replace(items, Items::new(alloc)).into_vec();
    kept.retain(|item| !is_among(obsolete, item));
    let Ok(()) = folded.append(&mut kept) else {
        unreachable!()
    };
    folded.sort_unstable();
    folded.dedup();
    *items = Items::from_vec(folded);
    Ok(())
}

impl Answer {
    /// Takes what is obsolete away, and then puts what is added in its place. What is obsolete and not there is passed
    /// over, and what is added and there stands once. After `NoMemory` the answer is unchanged.
    pub fn fold(&mut self, alloc: Global, difference: &Difference) -> Result<(), NoMemory>
        requires order { IsInOrder self.old }
        requires fits { Fits self.old difference.now }
        ensures ok { OnOk result (self.new ≡ folded self.old difference.now) }
        ensures err { OnErr result (self.new ≡ self.old) }
    {
        match (self, &difference.obsolete, &difference.added) {
            (Answer::Triples(triples), Answer::Triples(obsolete), Answer::Triples(added)) => {
                fold_items(alloc, triples, obsolete.as_slice(), added.as_slice())
            }
            (
                Answer::Table { rows, .. },
                Answer::Table { rows: obsolete, .. },
                Answer::Table { rows: added, .. },
            ) => fold_items(alloc, rows, obsolete.as_slice(), added.as_slice()),
            _ => unreachable!(),
        }
    }
}
