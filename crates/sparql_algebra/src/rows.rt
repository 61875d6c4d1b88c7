ghost use Rattle.std.specs.Prelude.{◌≡◌, ◌≤◌, ◌<◌, ◌↔◌, ◌+◌, ◌∷◌, ◌++◌, [], IsTrue, IsOk, OnOk, OnErr, IfSome, MatchOption, Contains, length, option_copied, slice_get};
ghost use Rattle.std.specs.List.{IsDistinct};
ghost use Rattle.sparql_algebra.specs.Solutions.{solution_eq, three, AreRising, IsWithoutRow};

use crate::Mapping;
use indexmap::IndexSet;
use m3_terms::{NoMemory, TermId};
use std::alloc::Global;
use std::marker::Model;

/// A list of distinct solutions, whose order means nothing.
#[derive(Drop)]
pub struct IdRows {
    rows: IndexSet<Mapping>,
}

impl Model for IdRows {
    ghost use Rattle.indexmap.specs.IndexSet.{spare};
    ghost use Rattle.sparql_algebra.specs.Solutions.{RowList, AreRising};

    ghost Value = { RowList };

    ghost view = { λ r. record { rows = r.rows.keys; room = spare r.rows } };

    ghost invariant = { λ r. AreRising r.rows.keys };
}

impl IdRows {
    /// No rows. It takes no memory.
    pub fn new(alloc: Global) -> IdRows
        ensures { result.rows ≡ [] }
    {
        IdRows {
            rows: IndexSet::new(alloc),
        }
    }

    /// The number of rows.
    pub fn len(&self) -> usize
        ensures length { result ≡ length self.now.rows }
        ensures distinct { IsDistinct solution_eq self.now.rows }
    {
        self.rows.len()
    }

    /// Whether there is no row.
    pub fn is_empty(&self) -> bool
        ensures { IsTrue result ↔ (self.now.rows ≡ []) }
    {
        self.rows.is_empty()
    }

    /// The rows as a slice, in the order in which they were added.
    pub fn as_slice(&self) -> &[Mapping]
        ensures rows { result.now ≡ self.now.rows }
        ensures distinct { IsDistinct solution_eq self.now.rows }
        ensures rising { AreRising self.now.rows }
    {
        self.rows.as_slice()
    }

    /// The row at a place, counted from 0, or `None` where there are not so many.
    pub fn get(&self, at: usize) -> Option<&Mapping>
        ensures { option_copied result ≡ slice_get self.now.rows at }
    {
        self.rows.get_index(at)
    }

    /// Whether the row is here. The time does not grow with the number of rows.
    pub fn contains(&self, row: &Mapping) -> bool
        ensures { IsTrue result ↔ Contains self.now.rows row.now }
    {
        self.rows.contains(row)
    }

    /// Makes room for `more` rows beyond those that are here: as many calls of `add` take no memory. After `NoMemory` the
    /// rows are the same.
    pub fn reserve(&mut self, more: usize) -> Result<(), NoMemory>
        ensures rows { self.new.rows ≡ self.old.rows }
        ensures kept_room { self.old.room ≤ self.new.room }
        ensures room { OnOk result (more ≤ self.new.room) }
        ensures succeeds { more ≤ self.old.room → IsOk result }
    {
        self.rows.reserve(more)?;
        Ok(())
    }

    /// Appends a row that isn't here. Where there is room it takes no memory.
    pub fn add(&mut self, row: Mapping) -> Result<(), NoMemory>
        requires { Contains self.old.rows row → ⊥ }
        ensures ok { OnOk result (self.new.rows ≡ self.old.rows ++ row ∷ []) }
        ensures err { OnErr result (self.new.rows ≡ self.old.rows) }
        ensures succeeds { 0 < self.old.room → IsOk result }
        ensures room { self.old.room ≤ self.new.room + 1 }
    {
        // What is added stands by rising variable.
        row.bindings();
        self.rows.insert(row)?;
        Ok(())
    }

    /// Takes out a row that is here. It takes no memory. The last row comes to its place.
    pub fn remove(&mut self, row: &Mapping)
        requires { Contains self.old.rows row.now }
        ensures rows { IsWithoutRow self.old.rows row.now self.new.rows }
        ensures fewer { length self.new.rows + 1 ≡ length self.old.rows }
        ensures room { self.old.room ≤ self.new.room }
    {
        self.rows.swap_remove(row);
    }

    /// Takes out the last row, or nothing where there is none. It takes no memory.
    pub fn pop(&mut self) -> Option<Mapping>
        ensures rows { MatchOption result ((self.old.rows ≡ []) × (self.new.rows ≡ [])) (λ row. self.old.rows ≡ self.new.rows ++ row ∷ []) }
        ensures once { IfSome result (λ row. Contains self.new.rows row → ⊥) }
        ensures room { self.old.room ≤ self.new.room }
    {
        self.rows.pop()
    }

    /// Appends the row whose variables 0, 1 and 2 have these numbers. It asks that this row isn't here.
    pub fn add_three(
        &mut self,
        alloc: Global,
        subject: TermId,
        predicate: TermId,
        object: TermId,
    ) -> Result<(), NoMemory>
        requires { Contains self.old.rows (three subject predicate object) → ⊥ }
        ensures ok { OnOk result (self.new.rows ≡ self.old.rows ++ three subject predicate object ∷ []) }
        ensures err { OnErr result (self.new.rows ≡ self.old.rows) }
        ensures room { self.old.room ≤ self.new.room + 1 }
    {
        self.add(Mapping::of_three(alloc, subject, predicate, object)?)
    }
}
