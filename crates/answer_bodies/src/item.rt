//! The items of answers: triples, and rows of cells.
ghost use Rattle.std.specs.Prelude.{◌≡◌, IfOk};
ghost use Rattle.std.specs.declared.cmp.Ordering.TheVariants.{Equal};
ghost use Rattle.m3_terms.specs.OrderLaws.{triple_cmp_exact, row_cmp_exact};

use m3_terms::{NoMemory, Row, Term, Triple};
use std::alloc::Global;

/// A triple or a row, which can be copied.
pub(crate) trait Item: Ord + Drop {
    /// An equal item, in memory of its own.
    fn copied(&self, alloc: Global) -> Result<Self, NoMemory>
        ensures { IfOk result (λ copied. copied ≡ self.now) };

    /// The order answers `Equal` at one item alone.
    ghost exact: { (a b : Self) → Self.cmp a b ≡ Equal → a ≡ b };
}

impl Item for Triple {
    fn copied(&self, _alloc: Global) -> Result<Triple, NoMemory> {
        self.copy()
    }

    ghost exact = { λ a b. (triple_cmp_exact a b).0 };
}

// An equal cell, in memory of its own.
fn copied_cell(cell: &Option<Term>) -> Result<Option<Term>, NoMemory>
    ensures { IfOk result (λ copied. copied ≡ cell.now) }
{
    match cell {
        Some(term) => Ok(Some(term.copy()?)),
        None => Ok(None),
    }
}

impl Item for Row {
    fn copied(&self, alloc: Global) -> Result<Row, NoMemory> {
        let mut copied = Row::new(alloc);
        for cell in self.as_slice() {
            copied.push(copied_cell(cell)?)?;
        }
        Ok(copied)
    }

    ghost exact = { λ a b. (row_cmp_exact a b).0 };
}
