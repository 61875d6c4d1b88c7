//! Triples in one ordered list: search, and changes in place.
ghost use Rattle.std.specs.Prelude.{◌≡◌, ◌≤◌, ◌+◌, ◌-◌, ◌∷◌, List, Contains, MatchOption, IsTrue, ◌↔◌, ◌<◌, slice_index_or, length, filter, take, vec_len, vec_capacity};
ghost use Rattle.triple_index.specs.Changes.{AreOrdered};
ghost use Rattle.triple_index.specs.Fits.{fits};
ghost use Rattle.triple_index.specs.Graphs.{fits_one, without, with_all};
ghost use Rattle.triple_index.specs.IdOrder.{id_triple_cmp, id_triple_eq};
ghost use Rattle.triple_index.specs.Sides.{place_side, side};

use crate::{IdPattern, IdTriple};
use m3_terms::TermId;
use std::cmp::Ordering;

/// Whether a triple is among triples in order.
pub(crate) fn is_among(triples: &[IdTriple], triple: &IdTriple) -> bool
    requires { AreOrdered triples.now }
    ensures { result ≡ fits_one id_triple_eq triples.now triple.now }
{
    triples.binary_search(triple).is_ok()
}

// Where a number stands to a place of a mask: as `next` says where they are equal.
fn side_of_place(place: Option<TermId>, id: TermId, next: Ordering) -> Ordering
    ensures { result ≡ place_side place id next }
{
    match place {
        None => Ordering::Equal,
        Some(wanted) => match id.cmp(&wanted) {
            Ordering::Less => Ordering::Less,
            Ordering::Equal => next,
            Ordering::Greater => Ordering::Greater,
        },
    }
}

// Where a triple stands to the places of a mask that are fixed, up to the first wildcard.
fn side_of(mask: &IdPattern, triple: &IdTriple) -> Ordering
    ensures { result ≡ side mask.now triple.now }
{
    let object = side_of_place(mask.object, triple.object, Ordering::Equal);
    let predicate = side_of_place(mask.predicate, triple.predicate, object);
    side_of_place(mask.subject, triple.subject, predicate)
}

/// The part of triples in order that a mask can fit: those that agree with its places up to the first wildcard.
pub(crate) fn range<'a>(triples: &'a [IdTriple], mask: &IdPattern) -> &'a [IdTriple]
    requires { AreOrdered triples.now }
    ensures { filter (fits mask.now) result.now ≡ filter (fits mask.now) triples.now }
{
    let start = triples.partition_point(|triple| side_of(mask, triple).is_lt());
    let rest = triples.split_at(start).1;
    let end = rest.partition_point(|triple| side_of(mask, triple).is_le());
    rest.split_at(end).0
}

// What comes behind the first triple, where that is this one.
fn rest_behind<'a>(triples: &'a [IdTriple], first: &IdTriple) -> Option<&'a [IdTriple]>
    ensures { MatchOption result ((rest : List IdTriple) → triples.now ≡ first.now ∷ rest → ⊥) (λ rest. triples.now ≡ first.now ∷ rest.now) }
{
    let (head, rest) = triples.split_first()?;
    if head == first { Some(rest) } else { None }
}

/// Takes triples out, which are in order and are there. What stays moves up.
pub(crate) fn close_up(triples: &mut Vec<IdTriple>, removed: &[IdTriple])
    requires ordered { AreOrdered triples.old.items }
    requires removed_ordered { AreOrdered removed.now }
    requires there { (t : IdTriple) → Contains removed.now t → Contains triples.old.items t }
    ensures items { triples.new.items ≡ without id_triple_eq triples.old.items removed.now }
    ensures len { vec_len triples.new ≤ vec_len triples.old }
    ensures capacity { vec_capacity triples.new ≡ vec_capacity triples.old }
{
    let Some((first, _)) = removed.split_first() else {
        return;
    };
    let start = triples.partition_point(|triple| triple < first);
    let mut kept = start;
    let mut left = removed;
    for at in start..triples.len() {
        let triple = triples[at];
        match rest_behind(left, &triple) {
            Some(rest) => left = rest,
            None => {
                triples[kept] = triple;
                kept += 1;
            }
        }
    }
    triples.truncate(kept);
}

/// Puts triples in their places, which are in order and are not there. There is room for them.
pub(crate) fn merge(triples: &mut Vec<IdTriple>, inserted: &[IdTriple])
    requires ordered { AreOrdered triples.old.items }
    requires inserted_ordered { AreOrdered inserted.now }
    requires fresh { (t : IdTriple) → Contains inserted.now t → Contains triples.old.items t → ⊥ }
    requires room { vec_len triples.old + length inserted.now ≤ vec_capacity triples.old }
    ensures items { triples.new.items ≡ with_all id_triple_cmp triples.old.items inserted.now }
    ensures len { vec_len triples.new ≡ vec_len triples.old + length inserted.now }
    ensures capacity { vec_capacity triples.old ≤ vec_capacity triples.new }
{
    if triples.extend_from_slice(inserted).is_err() {
        unreachable!();
    }
    merge_from_end(triples.as_mut_slice(), inserted);
}

// Whether a triple comes before the last of the first `left` triples.
fn comes_before(triple: &IdTriple, triples: &[IdTriple], left: usize) -> bool
    requires { left ≤ length triples.now }
    ensures { IsTrue result ↔ ((0 < left) × (id_triple_cmp triple.now (slice_index_or triples.now (left - 1) triple.now) ≡ Ordering.Less)) }
{
    0 < left && *triple < triples[left - 1]
}

// Merges triples in order into those in order that stand before as many places at the end.
fn merge_from_end(triples: &mut [IdTriple], inserted: &[IdTriple])
    requires ordered { AreOrdered (take (length triples.old - length inserted.now) triples.old) }
    requires inserted_ordered { AreOrdered inserted.now }
    requires fresh { (t : IdTriple) → Contains inserted.now t → Contains (take (length triples.old - length inserted.now) triples.old) t → ⊥ }
    requires places { length inserted.now ≤ length triples.old }
    ensures { triples.new ≡ with_all id_triple_cmp (take (length triples.old - length inserted.now) triples.old) inserted.now }
{
    let mut right = inserted.len();
    let mut left = triples.len() - right;
    while 0 < right {
        let last = inserted[right - 1];
        if comes_before(&last, triples, left) {
            triples[left + right - 1] = triples[left - 1];
            left -= 1;
        } else {
            triples[left + right - 1] = last;
            right -= 1;
        }
    }
}
