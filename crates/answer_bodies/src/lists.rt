//! Lists in order, doubles in them, and what is among them.
ghost use Rattle.std.specs.Prelude.{◌≡◌, IfOk, MatchOption, IsTrue, ◌↔◌};
ghost use Rattle.std.specs.List.{IsDistinct};
ghost use Rattle.std.specs.List.Sorted.{IsStrictlySortedBy};
ghost use Rattle.std.specs.Ordering.{eq_by_cmp};
ghost use Rattle.m3_terms.specs.Order.{text_eq};
ghost use Rattle.answer_bodies.specs.Lists.{IsOrdered, is_among};

use m3_terms::{Items, NoMemory, Text};

/// The items in their order, or None exactly where one is doubled.
pub fn ordered<T: Ord + Drop>(items: Items<T>) -> Result<Option<Items<T>>, NoMemory>
    ensures { IfOk result (λ sorted. MatchOption sorted (¬ (IsDistinct (eq_by_cmp T.cmp) items)) (IsOrdered T.cmp items)) }
{
    let mut items = items.into_vec();
    items.sort()?;
    if items.as_slice().is_sorted_by(|a, b| a.cmp(b).is_lt()) {
        Ok(Some(Items::from_vec(items)))
    } else {
        Ok(None)
    }
}

/// The items in their order, where none is doubled.
pub fn sorted<T: Ord + Drop>(items: Items<T>) -> Result<Items<T>, NoMemory>
    requires { IsDistinct (eq_by_cmp T.cmp) items }
    ensures { IfOk result (IsOrdered T.cmp items) }
{
    match ordered(items)? {
        Some(items) => Ok(items),
        None => unreachable!(),
    }
}

/// Whether an item is among items in order.
pub fn is_among<T: Ord>(items: &[T], item: &T) -> bool
    requires { IsStrictlySortedBy T.cmp items.now }
    ensures { result ≡ is_among T.cmp items.now item.now }
{
    items.binary_search(item).is_ok()
}

/// Whether no text is doubled.
pub fn are_distinct(texts: &[Text]) -> bool
    ensures { IsTrue result ↔ IsDistinct text_eq texts.now }
{
    for (i, text) in texts.iter().enumerate() {
        if texts[..i].contains(text) {
            return false;
        }
    }
    true
}
