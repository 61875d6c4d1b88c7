//! Views of a graph, of which each row that is read is counted.
ghost use Rattle.std.specs.Prelude.{◌≡◌, ◌+◌, ◌∷◌, [], ◌&&◌, not, MatchOption, filter, length};
ghost use Rattle.std.specs.List.Sorted.{IsPermutation};
ghost use Rattle.std.specs.Option.{option_to_list};
ghost use Rattle.triple_index.specs.Changes.{AreOrdered, IsNet, changed};
ghost use Rattle.triple_index.specs.Fits.{fits};
ghost use Rattle.triple_index.specs.Graphs.{fits_one};
ghost use Rattle.triple_index.specs.IdOrder.{id_triple_eq};
ghost use Rattle.triple_index.specs.Rows.{rows_of};

use crate::list::{is_among, range};
use crate::{Change, IdPattern, IdTriple, Index};
use m3_terms::Steps;
use std::marker::{Model, PhantomData};
use std::sync::ledger::Ledger;

/// A graph to be read row by row, on counters of the ledger `L` alone.
#[derive(Drop)]
pub struct View<'a, L: Ledger> {
    index: &'a Index,
    removed: &'a [IdTriple],
    inserted: &'a [IdTriple],
    ledger: PhantomData<L>,
}

impl<'a, L: Ledger> Model for View<'a, L> {
    ghost use Rattle.std.specs.Prelude.{List};
    ghost use Rattle.triple_index.specs.Changes.{AreOrdered, IsNet, changed};
    ghost use Rattle.triple_index.specs.declared.triple.IdTriple.{IdTriple as SeenTriple};

    ghost Value = { List SeenTriple };

    ghost view = { λ v. changed v.index.now.triples (record { removed = v.removed.now; inserted = v.inserted.now }) };

    ghost invariant = { λ v. AreOrdered v.removed.now × AreOrdered v.inserted.now × IsNet v.index.now.triples (record { removed = v.removed.now; inserted = v.inserted.now }) };
}

impl<'a, L: Ledger> View<'a, L> {
    /// The graph of an index.
    pub fn plain(index: &'a Index) -> View<'a, L>
        ensures { result ≡ index.now.triples }
    {
        View {
            index,
            removed: &[],
            inserted: &[],
            ledger: PhantomData,
        }
    }

    /// The graph of an index after a change that is net for it.
    pub fn after(index: &'a Index, change: &'a Change) -> View<'a, L>
        requires { IsNet index.now.triples change.now }
        ensures { result ≡ changed index.now.triples change.now }
    {
        View {
            index,
            removed: change.removed().as_slice(),
            inserted: change.inserted().as_slice(),
            ledger: PhantomData,
        }
    }

    /// The triples that fit a mask, each once, in any order.
    pub fn rows(&self, mask: &IdPattern) -> RowsOf<'a, L>
        ensures rows { IsPermutation (filter (fits mask.now) self.now) result }
        ensures ordered { AreOrdered self.now }
    {
        RowsOf {
            mask: *mask,
            kept: self.index.range(mask),
            removed: self.removed,
            inserted: range(self.inserted, mask),
            ledger: PhantomData,
        }
    }
}

/// The rows of a view that are still to come.
#[derive(Drop)]
pub struct RowsOf<'a, L: Ledger> {
    mask: IdPattern,
    kept: &'a [IdTriple],
    removed: &'a [IdTriple],
    inserted: &'a [IdTriple],
    ledger: PhantomData<L>,
}

impl<'a, L: Ledger> Model for RowsOf<'a, L> {
    ghost use Rattle.std.specs.Prelude.{List, ◌++◌, filter};
    ghost use Rattle.triple_index.specs.Changes.{AreOrdered};
    ghost use Rattle.triple_index.specs.Fits.{fits};
    ghost use Rattle.triple_index.specs.Rows.{rows_of};
    ghost use Rattle.triple_index.specs.declared.triple.IdTriple.{IdTriple as SeenTriple};

    ghost Value = { List SeenTriple };

    ghost view = { λ r. rows_of r.mask r.kept.now r.removed.now ++ filter (fits r.mask) r.inserted.now };

    ghost invariant = { λ r. AreOrdered r.removed.now };
}

impl<'a, L: Ledger> RowsOf<'a, L> {
    /// The next row, which counts as one step, or `None` where all rows were handed out.
    pub fn next(&mut self, steps: &mut Steps<L>) -> Option<IdTriple>
        ensures row { MatchOption result ((self.old ≡ []) × (self.new ≡ [])) (λ triple. self.old ≡ triple ∷ self.new) }
        ensures counted { steps.new ≡ steps.old + length (option_to_list result) }
    {
        let row = self.find();
        if row.is_some() {
            steps.tick();
        }
        row
    }

    // The next row, which is not counted yet.
    fn find(&mut self) -> Option<IdTriple>
        ensures { MatchOption result ((self.old ≡ []) × (self.new ≡ [])) (λ triple. self.old ≡ triple ∷ self.new) }
    {
        if let Some((row, rest)) = first_row(&self.mask, self.kept, self.removed) {
            self.kept = rest;
            return Some(row);
        }
        self.kept = &[];
        if let Some((row, rest)) = first_row(&self.mask, self.inserted, &[]) {
            self.inserted = rest;
            return Some(row);
        }
        self.inserted = &[];
        None
    }
}

// Whether a triple fits the mask and is not removed.
fn is_row(mask: &IdPattern, triple: &IdTriple, removed: &[IdTriple]) -> bool
    requires { AreOrdered removed.now }
    ensures { result ≡ (fits mask.now triple.now && not (fits_one id_triple_eq removed.now triple.now)) }
{
    mask.fits(triple) && !is_among(removed, triple)
}

// The first of the triples that fits the mask and is not removed, and what comes behind it.
fn first_row<'a>(
    mask: &IdPattern,
    triples: &'a [IdTriple],
    removed: &[IdTriple],
) -> Option<(IdTriple, &'a [IdTriple])>
    requires { AreOrdered removed.now }
    ensures { MatchOption result (rows_of mask.now triples.now removed.now ≡ []) (λ found. rows_of mask.now triples.now removed.now ≡ found.0 ∷ rows_of mask.now found.1.now removed.now) }
{
    for (at, triple) in triples.iter().enumerate() {
        if is_row(mask, triple, removed) {
            return Some((*triple, triples.split_at(at + 1).1));
        }
    }
    None
}
