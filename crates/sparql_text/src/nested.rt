//! Things that stand inside others.
ghost use Rattle.std.specs.Prelude.{◌≡◌, [], ◌∷◌, OnOk, IsTrue, ◌↔◌, MatchOption};

use m3_terms::NoMemory;
use std::alloc::Global;
use std::marker::Model;

/// Things each of which stands inside the next. Contracts see them as a list, the innermost first.
#[derive(Drop)]
pub struct Nested<T> {
    items: Vec<T>,
}

impl<T> Model for Nested<T> {
    ghost use Rattle.std.specs.Prelude.{List, reverse};

    ghost Value = { List T };

    ghost view = { λ n. reverse n.items.items };
}

impl<T> Nested<T> {
    /// Nothing. It takes no memory.
    pub fn new(alloc: Global) -> Nested<T>
        ensures { result ≡ [] }
    {
        Nested {
            items: Vec::new(alloc),
        }
    }

    /// Whether there is nothing.
    pub fn is_empty(&self) -> bool
        ensures { IsTrue result ↔ (self.now ≡ []) }
    {
        self.items.is_empty()
    }

    /// Takes out the innermost.
    pub fn pop(&mut self) -> Option<T>
        ensures { MatchOption result ((self.old ≡ []) × (self.new ≡ [])) (λ item. self.old ≡ item ∷ self.new) }
    {
        self.items.pop()
    }
}

impl<T: Drop> Nested<T> {
    /// Puts one inside the others.
    pub fn push(&mut self, item: T) -> Result<(), NoMemory>
        ensures { OnOk result (self.new ≡ item ∷ self.old) }
    {
        self.items.push(item)?;
        Ok(())
    }
}
