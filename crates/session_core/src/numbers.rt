//! Patterns by the numbers of their terms.
ghost use Rattle.std.specs.Prelude.{◌≡◌, ◌++◌, ℕ, List, filter_map, slice_get, refl, IfOk, OnOk};
ghost use Rattle.m3_terms.specs.declared.term.Term.{Term};
ghost use Rattle.std.specs.Option.{option_to_list};
ghost use Rattle.session_core.specs.Graph.{terms_of_slot, terms_of_pattern, terms_of as terms_in};
ghost use Rattle.session_core.specs.Numbers.{number_of_slot, ids_of, place_in, pattern_in};

use m3_intern::{Both, Interner};
use m3_terms::{Items, NoMemory, Pattern, Slot, TermId, TermList, TermTable};
use std::alloc::Global;
use triple_index::{IdPattern, IdPatterns, IdTriple, IdTriples};

/// A table whose terms stand in a list, each under the number of those before it.
pub(crate) trait Listed: TermTable {
    /// The terms in the order of their numbers.
    ghost listed: { Self → List Term };

    /// A number has the term at its position in the list.
    ghost by_position: { (table : Self) (n : ℕ) → Self.terms table n ≡ slice_get (listed table) n };
}

impl<'a> Listed for Both<'a> {
    ghost listed = { λ both. both };

    ghost by_position = { λ both n. refl };
}

impl Listed for Interner {
    ghost listed = { λ kept. kept.terms };

    ghost by_position = { λ kept n. refl };
}

// Appends an item, where there is one.
fn push_some<T: Drop>(items: &mut Items<T>, item: Option<T>) -> Result<(), NoMemory>
    ensures { OnOk result (items.new ≡ items.old ++ option_to_list item) }
{
    match item {
        Some(item) => items.push(item),
        None => Ok(()),
    }
}

fn push_slot(terms: &mut TermList, slot: &Slot) -> Result<(), NoMemory>
    ensures { OnOk result (terms.new ≡ terms.old ++ terms_of_slot slot.now) }
{
    match slot {
        Slot::Any => Ok(()),
        Slot::Is(term) => terms.push(term.copy()?),
    }
}

fn push_pattern(terms: &mut TermList, pattern: &Pattern) -> Result<(), NoMemory>
    ensures { OnOk result (terms.new ≡ terms.old ++ terms_of_pattern pattern.now) }
{
    push_slot(terms, &pattern.subject)?;
    push_slot(terms, &pattern.predicate)?;
    push_slot(terms, &pattern.object)
}

/// Copies of the terms of patterns, one after another.
pub(crate) fn terms_of(alloc: Global, patterns: &[Pattern]) -> Result<TermList, NoMemory>
    ensures { IfOk result (λ terms. terms ≡ terms_in patterns.now) }
{
    let mut terms = TermList::new(alloc);
    for pattern in patterns {
        push_pattern(&mut terms, pattern)?;
    }
    Ok(terms)
}

fn number<T: Listed>(table: &T, slot: &Slot) -> Option<TermId>
    ensures { result ≡ number_of_slot (T.listed table.now) slot.now }
{
    match slot {
        Slot::Any => None,
        Slot::Is(term) => table.id_of(term),
    }
}

fn triple_by<T: Listed>(table: &T, pattern: &Pattern) -> Option<IdTriple>
    ensures { result ≡ ids_of (T.listed table.now) pattern.now }
{
    Some(IdTriple {
        subject: number(table, &pattern.subject)?,
        predicate: number(table, &pattern.predicate)?,
        object: number(table, &pattern.object)?,
    })
}

/// The triples that patterns are, by the numbers of a table.
pub(crate) fn triples_by<T: Listed>(
    alloc: Global,
    table: &T,
    patterns: &[Pattern],
) -> Result<IdTriples, NoMemory>
    ensures { IfOk result (λ triples. triples ≡ filter_map (ids_of (T.listed table.now)) patterns.now) }
{
    let mut triples = IdTriples::new(alloc);
    for pattern in patterns {
        push_some(&mut triples, triple_by(table, pattern))?;
    }
    Ok(triples)
}

fn place<T: Listed>(table: &T, slot: &Slot) -> Option<Option<TermId>>
    ensures { result ≡ place_in (T.listed table.now) slot.now }
{
    match slot {
        Slot::Any => Some(None),
        Slot::Is(term) => Some(Some(table.id_of(term)?)),
    }
}

fn pattern_by<T: Listed>(table: &T, pattern: &Pattern) -> Option<IdPattern>
    ensures { result ≡ pattern_in (T.listed table.now) pattern.now }
{
    Some(IdPattern {
        subject: place(table, &pattern.subject)?,
        predicate: place(table, &pattern.predicate)?,
        object: place(table, &pattern.object)?,
    })
}

/// Patterns by the numbers of a table. One with a term that has no number fits nothing and is left out.
pub(crate) fn patterns_by<T: Listed>(
    alloc: Global,
    table: &T,
    patterns: &[Pattern],
) -> Result<IdPatterns, NoMemory>
    ensures { IfOk result (λ ids. ids ≡ filter_map (pattern_in (T.listed table.now)) patterns.now) }
{
    let mut ids = IdPatterns::new(alloc);
    for pattern in patterns {
        push_some(&mut ids, pattern_by(table, pattern))?;
    }
    Ok(ids)
}
