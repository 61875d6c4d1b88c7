//! Lists of terms, triples, patterns, cells, rows and columns.
ghost use Rattle.std.specs.Prelude.{◌≡◌, ◌++◌, ◌∷◌, [], List, length, OnOk, OnErr, IsTrue, ◌↔◌, slice_get, option_copied};

use crate::{NoMemory, Pattern, Term, Text, Triple};
use std::alloc::Global;
use std::marker::Model;

/// Items in a row, as a list.
#[derive(Debug, Drop)]
pub struct Items<T> {
    items: Vec<T>,
}

/// Triples in a row.
pub type Triples = Items<Triple>;

/// Patterns in a row.
pub type Patterns = Items<Pattern>;

/// Terms in a row, of which some may be equal.
pub type TermList = Items<Term>;

/// The cells of one answer, in the order of columns; a cell without a term is unbound.
pub type Row = Items<Option<Term>>;

/// Rows, one after the other.
pub type Rows = Items<Row>;

/// The names of columns, from the first on.
pub type Columns = Items<Text>;

impl<T> Model for Items<T> {
    ghost Value = { List T };

    ghost view = { λ row. row.items.items };
}

impl<T> Items<T> {
    /// No items. It takes no memory.
    pub fn new(alloc: Global) -> Items<T>
        ensures { result ≡ [] }
    {
        Items {
            items: Vec::new(alloc),
        }
    }

    /// The items of a vector, which is kept as it is.
    pub fn from_vec(items: Vec<T>) -> Items<T>
        ensures { result ≡ items.items }
    {
        Items { items }
    }

    /// The vector of the items, with no memory taken.
    pub fn into_vec(self) -> Vec<T>
        ensures { result.items ≡ self }
    {
        self.items
    }

    /// The items as a slice.
    pub fn as_slice(&self) -> &[T]
        ensures { result.now ≡ self.now }
    {
        self.items.as_slice()
    }

    /// How many items there are.
    pub fn len(&self) -> usize
        ensures { result ≡ length self.now }
    {
        self.items.len()
    }

    /// Whether there is no item.
    pub fn is_empty(&self) -> bool
        ensures { IsTrue result ↔ (self.now ≡ []) }
    {
        self.items.is_empty()
    }

    /// The item at an index, or `None` from the end on.
    pub fn get(&self, at: usize) -> Option<&T>
        ensures { option_copied result ≡ slice_get self.now at }
    {
        self.items.get(at)
    }
}

impl<T: Drop> Items<T> {
    /// Appends an item. After `NoMemory` the list is unchanged and the item is dropped.
    pub fn push(&mut self, item: T) -> Result<(), NoMemory>
        ensures ok { OnOk result (self.new ≡ self.old ++ item ∷ []) }
        ensures err { OnErr result (self.new ≡ self.old) }
    {
        self.items.push(item)?;
        Ok(())
    }
}
