//! Changes that do nothing in vain.
ghost use Rattle.std.specs.Prelude.{◌≡◌, ◌≤◌, ◌+◌, ◌++◌, IfOk, OnOk, OnErr, length};
ghost use Rattle.triple_index.specs.Changes.{AreOrdered, IsNet, changed};
ghost use Rattle.triple_index.specs.Fits.{fits};
ghost use Rattle.triple_index.specs.Graphs.{after, count_fitting};
ghost use Rattle.triple_index.specs.IdOrder.{id_triple_cmp};
ghost use Rattle.triple_index.specs.Parts.{HasFitting, HasSame, IsRest};

use crate::list::is_among;
use crate::{IdPattern, IdPatterns, IdTriple, IdTriples, Index, RowsOf, View};
use m3_terms::{Items, NoMemory, Steps};
use std::alloc::Global;
use std::marker::Model;
use std::sync::ledger::Ledger;

/// A change of a graph: triples that are removed from it, and triples that are inserted into it. Both are in order, each
/// triple once.
#[derive(Drop)]
pub struct Change {
    removed: IdTriples,
    inserted: IdTriples,
}

impl Model for Change {
    ghost use Rattle.triple_index.specs.Changes.{Net, AreOrdered};

    ghost Value = { Net };

    ghost view = { λ change. record { removed = change.removed; inserted = change.inserted } };

    ghost invariant = { λ change. AreOrdered change.removed × AreOrdered change.inserted };
}

impl Change {
    /// The change of an update: what fits a pattern of `remove` is gone, and then what is in `insert` is there. It reads
    /// no more rows than the triples that fit, summed over the patterns.
    pub fn net<L: Ledger>(
        alloc: Global,
        index: &Index,
        remove: &IdPatterns,
        insert: &IdTriples,
        steps: &mut Steps<L>,
    ) -> Result<Change, NoMemory>
        ensures net { IfOk result (IsNet index.now.triples) }
        ensures after { IfOk result (λ change. changed index.now.triples change ≡ after id_triple_cmp fits index.now.triples remove.now insert.now) }
        ensures reads { steps.new ≤ steps.old + count_fitting fits index.now.triples remove.now }
    {
        let wanted = in_order(Vec::from_slice(alloc, insert.as_slice())?);
        let read = read_fitting(alloc, index, remove.as_slice(), steps)?;
        let removed = rest_of(in_order(read), wanted.as_slice());
        let inserted = rest_of(wanted, index.as_slice());
        Ok(Change {
            removed: Items::from_vec(removed),
            inserted: Items::from_vec(inserted),
        })
    }

    /// The triples that are removed.
    pub fn removed(&self) -> &IdTriples
        ensures triples { result.now ≡ self.now.removed }
        ensures ordered { AreOrdered result.now }
    {
        &self.removed
    }

    /// The triples that are inserted.
    pub fn inserted(&self) -> &IdTriples
        ensures triples { result.now ≡ self.now.inserted }
        ensures ordered { AreOrdered result.now }
    {
        &self.inserted
    }
}

// The same triples in order, each once.
fn in_order(mut triples: Vec<IdTriple>) -> Vec<IdTriple>
    ensures ordered { AreOrdered result.items }
    ensures same { HasSame triples.items result.items }
{
    triples.sort_unstable();
    triples.dedup();
    triples
}

// Those of the triples that are not among others.
fn rest_of(mut triples: Vec<IdTriple>, others: &[IdTriple]) -> Vec<IdTriple>
    requires ordered { AreOrdered triples.items }
    requires others_ordered { AreOrdered others.now }
    ensures ordered { AreOrdered result.items }
    ensures rest { IsRest triples.items others.now result.items }
{
    triples.retain(|triple| !is_among(others, triple));
    triples
}

// Puts the rows that are still to come behind others.
fn read_rows<L: Ledger>(
    into: &mut Vec<IdTriple>,
    rows: &mut RowsOf<'_, L>,
    steps: &mut Steps<L>,
) -> Result<(), NoMemory>
    ensures ok { OnOk result (into.new.items ≡ into.old.items ++ rows.old) }
    ensures reads { steps.new ≤ steps.old + length rows.old }
{
    while let Some(row) = rows.next(steps) {
        into.push(row)?;
    }
    Ok(())
}

// The triples that fit one of the patterns.
fn read_fitting<L: Ledger>(
    alloc: Global,
    index: &Index,
    patterns: &[IdPattern],
    steps: &mut Steps<L>,
) -> Result<Vec<IdTriple>, NoMemory>
    ensures fitting { IfOk result (λ read. HasFitting index.now.triples patterns.now read.items) }
    ensures reads { steps.new ≤ steps.old + count_fitting fits index.now.triples patterns.now }
{
    let view: View<'_, L> = View::plain(index);
    let mut read = Vec::new(alloc);
    for pattern in patterns {
        read_rows(&mut read, &mut view.rows(pattern), steps)?;
    }
    Ok(read)
}
