//! The interner.
ghost use Rattle.std.specs.Prelude.{◌≡◌, ◌≤◌, ◌+◌, ◌^◌, ◌++◌, [], Contains, IfOk, IfErr, OnOk, OnErr, length, slice_get};
ghost use Rattle.m3_terms.specs.declared.term.Term.{Term as SeenTerm};
ghost use Rattle.m3_intern.specs.Interned.{bytes_of_terms, fresh, IsDraftOf, IsRefused};

use crate::cost::cost;
use crate::draft::fresh_terms;
use crate::{Draft, InternFault, TermKeys};
use indexmap::IndexSet;
use m3_terms::{NoMemory, Term, TermId, TermList, TermTable};
use std::alloc::Global;
use std::marker::Model;

// The keys of an interner whose terms nobody picks to do harm, so that a replay takes the same steps each time.
const FIXED_KEYS: TermKeys = TermKeys { key0: 0, key1: 0 };

/// Terms, each kept once and under one number, from 0 on in the order in which they came.
///
/// A kept term costs its text's bytes and 32, and the sum over all stays within a limit.
#[derive(Drop)]
pub struct Interner {
    pub(crate) terms: IndexSet<Term, TermKeys>,
    used: u64,
    limit: u64,
}

impl Model for Interner {
    ghost use Rattle.indexmap.specs.IndexSet.{spare};
    ghost use Rattle.m3_intern.specs.Interned.{Kept};
    ghost use Rattle.m3_intern.specs.Inside.{AreKept};

    ghost Value = { Kept };

    ghost view = { λ i. record { terms = i.terms.keys; limit = i.limit; room = spare i.terms } };

    ghost invariant = { λ i. AreKept i.terms.keys i.used i.limit };
}

impl Interner {
    /// No terms, and the most that terms may cost. It takes no memory, and hashes under fixed keys.
    pub fn new(alloc: Global, limit: u64) -> Interner
        requires { limit ≤ 2 ^ 36 }
        ensures terms { result.terms ≡ [] }
        ensures limit { result.limit ≡ limit }
    {
        Interner::keyed(alloc, limit, FIXED_KEYS)
    }

    /// The same under keys that those who pick the terms can't know. The keys change the time of calls and no answer.
    pub fn keyed(alloc: Global, limit: u64, keys: TermKeys) -> Interner
        requires { limit ≤ 2 ^ 36 }
        ensures terms { result.terms ≡ [] }
        ensures limit { result.limit ≡ limit }
    {
        Interner {
            terms: IndexSet::with_hasher(alloc, keys),
            used: 0,
            limit,
        }
    }

    /// What the kept terms cost together.
    pub fn used(&self) -> u64
        ensures sum { result ≡ bytes_of_terms self.now.terms }
        ensures limit { result ≤ self.now.limit }
    {
        self.used
    }

    /// The wanted terms that are new, each once, with the memory of their texts.
    ///
    /// `Full` comes exactly where they and the kept terms would cost more than the limit.
    pub fn draft(&self, wanted: TermList) -> Result<Draft, InternFault>
        ensures fresh { IfOk result (λ draft. draft ≡ fresh self.now.terms wanted) }
        ensures draft { IfOk result (IsDraftOf self.now) }
        ensures named { IfOk result (λ draft. (term : SeenTerm) → Contains wanted term → Contains (self.now.terms ++ draft) term) }
        ensures fault { IfErr result (IsRefused self.now wanted) }
    {
        let terms = fresh_terms(&self.terms, wanted)?;
        let cost = cost(terms.as_slice());
        let need = self.used.saturating_add(cost);
        if need > self.limit {
            return Err(InternFault::Full { need });
        }
        Ok(Draft { terms, cost })
    }

    /// Makes room for the terms of a draft. After `NoMemory` the interner is unchanged.
    pub fn reserve_for(&mut self, draft: &Draft) -> Result<(), NoMemory>
        requires { IsDraftOf self.old draft.now }
        ensures terms { self.new.terms ≡ self.old.terms }
        ensures limit { self.new.limit ≡ self.old.limit }
        ensures draft { IsDraftOf self.new draft.now }
        ensures kept_room { self.old.room ≤ self.new.room }
        ensures room { OnOk result (length draft.now ≤ self.new.room) }
    {
        self.terms.reserve(draft.terms.len())?;
        Ok(())
    }

    /// Keeps the terms of a draft, for which there is room. It takes no memory.
    pub fn commit(&mut self, draft: Draft)
        requires draft { IsDraftOf self.old draft }
        requires room { length draft ≤ self.old.room }
        ensures terms { self.new.terms ≡ self.old.terms ++ draft }
        ensures limit { self.new.limit ≡ self.old.limit }
        ensures room { self.old.room ≤ self.new.room + length draft }
    {
        let mut draft = draft;
        match self.terms.append(&mut draft.terms) {
            Ok(()) => self.used += draft.cost,
            Err(_) => unreachable!(),
        }
    }
}

impl TermTable for Interner {
    ghost terms = { λ kept n. slice_get kept.terms n };

    fn id_of(&self, term: &Term) -> Option<TermId> {
        let at = self.terms.get_index_of(term)?;
        Some(TermId(at as u32))
    }

    fn term_of(&self, id: TermId) -> Option<&Term> {
        self.terms.get_index(id.0 as usize)
    }
}
