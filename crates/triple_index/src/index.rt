//! The triples of a graph.
ghost use Rattle.std.specs.Prelude.{◌≡◌, ◌≤◌, ◌+◌, [], ◌↔◌, IsTrue, OnOk, OnErr, Contains, length, filter};
ghost use Rattle.triple_index.specs.Changes.{AreOrdered, IsNet, changed};
ghost use Rattle.triple_index.specs.Fits.{fits};

use crate::list::{close_up, is_among, merge, range};
use crate::{Change, IdPattern, IdTriple};
use m3_terms::NoMemory;
use std::alloc::Global;
use std::marker::Model;

/// The triples of a graph, in order, each once.
#[derive(Drop)]
pub struct Index {
    triples: Vec<IdTriple>,
}

impl Model for Index {
    ghost use Rattle.std.specs.Prelude.{◌-◌, vec_len, vec_capacity};
    ghost use Rattle.triple_index.specs.Changes.{Graph, AreOrdered};

    ghost Value = { Graph };

    ghost view = { λ index. record { triples = index.triples.items; room = vec_capacity index.triples - vec_len index.triples } };

    ghost invariant = { λ index. AreOrdered index.triples.items };
}

impl Index {
    /// No triples. It takes no memory.
    pub fn new(alloc: Global) -> Index
        ensures { result.triples ≡ [] }
    {
        Index {
            triples: Vec::new(alloc),
        }
    }

    /// The number of triples.
    pub fn len(&self) -> usize
        ensures length { result ≡ length self.now.triples }
        ensures ordered { AreOrdered self.now.triples }
    {
        self.triples.len()
    }

    /// Whether the triple is in the graph.
    pub fn contains(&self, triple: &IdTriple) -> bool
        ensures { IsTrue result ↔ Contains self.now.triples triple.now }
    {
        is_among(self.triples.as_slice(), triple)
    }

    /// Makes room for `more` triples beyond those that are here.
    pub fn reserve(&mut self, more: usize) -> Result<(), NoMemory>
        ensures triples { self.new.triples ≡ self.old.triples }
        ensures room { OnOk result (more ≤ self.new.room) }
        ensures err { OnErr result (self.new ≡ self.old) }
    {
        self.triples.reserve(more)?;
        Ok(())
    }

    /// Makes the change, which is net for this index. It takes no memory, since there is room for what it inserts.
    pub fn apply(&mut self, change: &Change)
        requires net { IsNet self.old.triples change.now }
        requires room { length change.now.inserted ≤ self.old.room }
        ensures triples { self.new.triples ≡ changed self.old.triples change.now }
        ensures room { self.old.room ≤ self.new.room + length change.now.inserted }
    {
        close_up(&mut self.triples, change.removed().as_slice());
        merge(&mut self.triples, change.inserted().as_slice());
    }

    /// The triples in order, each once.
    pub(crate) fn as_slice(&self) -> &[IdTriple]
        ensures triples { result.now ≡ self.now.triples }
        ensures ordered { AreOrdered self.now.triples }
    {
        self.triples.as_slice()
    }

    /// Triples in order, each once, among which are all that fit the mask.
    pub(crate) fn range(&self, mask: &IdPattern) -> &[IdTriple]
        ensures fitting { filter (fits mask.now) result.now ≡ filter (fits mask.now) self.now.triples }
        ensures ordered { AreOrdered self.now.triples }
    {
        range(self.triples.as_slice(), mask)
    }
}
