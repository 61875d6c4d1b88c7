//! Answers to template lists, and solutions of basic graph patterns.
ghost use Rattle.std.specs.Prelude.{◌≡◌, ◌<◌, IsTrue, IsSome, option_copied};
ghost use Rattle.std.specs.List.{AllByRecursion};
ghost use Rattle.std.specs.Option.{IsSomeAnd};
ghost use Rattle.m3_terms.specs.Term.{IsUri};
ghost use Rattle.sparql_algebra.specs.Valid.{HasNamedPlace, HasNamedTriple};
ghost use Rattle.pattern_join.specs.Meaning.{triple_in, AreMeant};

use crate::index::{Numbers, index_of, masks, triple, triples};
use crate::interner::keep;
use m3_intern::Interner;
use m3_terms::{NoMemory, Steps, Term, TermId, TermList, TermTable};
use pattern_join::{EvalFault, bgp_all, matches};
use sparql_algebra::{Algebra, IdRows, Mapping, PatternList, PatternTriple, Place, Var};
use std::alloc::Global;
use std::marker::Brand;
use std::process::Abort;
use std::sync::ledger::{Blank, Ledger};
use std::test::Fail;
use triple_index::{IdPattern, IdTriple, IdTriples, View};

/// A graph, templates, and the triples that answer them. In a template, 0 is the wildcard.
struct Case {
    graph: &'static [Numbers],
    templates: &'static [Numbers],
    answer: &'static [Numbers],
}

const GRAPH: &[Numbers] = &[[6, 2, 3], [1, 4, 5], [1, 2, 3]];

const CASES: &[Case] = &[
    // one template
    Case {
        graph: GRAPH,
        templates: &[[1, 0, 0]],
        answer: &[[1, 2, 3], [1, 4, 5]],
    },
    // two that overlap, the later triple first
    Case {
        graph: GRAPH,
        templates: &[[0, 2, 3], [1, 0, 0]],
        answer: &[[1, 2, 3], [1, 4, 5], [6, 2, 3]],
    },
    // none
    Case {
        graph: GRAPH,
        templates: &[],
        answer: &[],
    },
    // one that nothing fits
    Case {
        graph: GRAPH,
        templates: &[[9, 0, 0]],
        answer: &[],
    },
    // the wildcard of all, and one of its triples
    Case {
        graph: GRAPH,
        templates: &[[1, 4, 5], [0, 0, 0]],
        answer: &[[1, 2, 3], [1, 4, 5], [6, 2, 3]],
    },
    // no graph
    Case {
        graph: &[],
        templates: &[[0, 0, 0]],
        answer: &[],
    },
];

/// The answer to templates over a graph, each given by its numbers.
fn answer<L: Ledger>(
    alloc: Global,
    graph: &IdTriples,
    templates: &[Numbers],
    steps: &mut Steps<L>,
) -> Result<IdTriples, EvalFault> {
    let index = index_of(alloc, graph, steps)?;
    let templates = masks(alloc, templates)?;
    matches(alloc, &View::plain(&index), &templates, steps)
}

/// Whether the answer is as the table says.
fn is_answered<L: Ledger>(
    alloc: Global,
    case: &Case,
    steps: &mut Steps<L>,
) -> Result<bool, EvalFault> {
    let found = answer(alloc, &triples(alloc, case.graph)?, case.templates, steps)?;
    let wanted = triples(alloc, case.answer)?;
    Ok(found.as_slice() == wanted.as_slice())
}

fn all_answered<L: Ledger>(
    rt: &impl Abort,
    alloc: Global,
    cases: &[Case],
    blank: Blank,
) -> Result<(), EvalFault>
    requires name { blank.name ≡ L.name }
    requires parts { blank.parts ≡ L.parts }
    requires some { 0 < L.parts }
{
    let mut steps = Steps::<L>::new(blank);
    for (at, case) in cases.iter().enumerate() {
        let holds = is_answered(alloc, case, &mut steps)?;
        assert_eq!(rt; (at, holds), (at, true));
    }
    Ok(())
}

#[test]
fn answers_templates_each_triple_once(rt: HostRuntime) -> Result<(), Fail> {
    all_answered::<Brand>(&rt, rt.alloc(), CASES, Blank::new(1))?;
    Ok(())
}

/// As many triples, in falling order.
fn falling(alloc: Global, count: u32) -> Result<IdTriples, NoMemory> {
    let mut falling = IdTriples::new(alloc);
    for number in (0..count).rev() {
        falling.push(triple(&[number, 1, 2]))?;
    }
    Ok(falling)
}

/// The width of the answer to the wildcard over as many triples.
fn width_of_all<L: Ledger>(
    alloc: Global,
    count: u32,
    steps: &mut Steps<L>,
) -> Result<usize, EvalFault> {
    let found = answer(alloc, &falling(alloc, count)?, &[[0, 0, 0]], steps)?;
    Ok(found.len())
}

fn widths_end<L: Ledger>(rt: &impl Abort, alloc: Global, blank: Blank)
    requires name { blank.name ≡ L.name }
    requires parts { blank.parts ≡ L.parts }
    requires some { 0 < L.parts }
{
    let mut steps = Steps::<L>::new(blank);
    assert_eq!(rt; width_of_all(alloc, 65_536, &mut steps), Ok(65_536));
    assert_eq!(rt;
        width_of_all(alloc, 65_537, &mut steps),
        Err(EvalFault::TooWide)
    );
}

#[test]
fn one_triple_over_the_limit_is_too_wide(rt: HostRuntime) -> Result<(), Fail> {
    widths_end::<Brand>(&rt, rt.alloc(), Blank::new(1));
    Ok(())
}

/// A position of a triple pattern: a variable by its number, or the uri with this text.
#[derive(Clone, Copy)]
enum Spot {
    Var(u8),
    Is(&'static [u8]),
}

/// A graph, triple patterns, and the rows of their solutions.
struct Solved {
    graph: &'static [Numbers],
    patterns: &'static [[Spot; 3]],
    rows: &'static [&'static [(u8, u32)]],
}

// The uris under 0, 1, 2 and 3.
const URIS: &[&[u8]] = &[b"a", b"b", b"p", b"q"];

const A: Spot = Spot::Is(b"a");

const P: Spot = Spot::Is(b"p");

const Q: Spot = Spot::Is(b"q");

const UNKNOWN: Spot = Spot::Is(b"z");

const X: Spot = Spot::Var(0);

const Y: Spot = Spot::Var(1);

const Z: Spot = Spot::Var(2);

// `a p b`, `b p a` and `a p a`
const RING: &[Numbers] = &[[0, 2, 1], [1, 2, 0], [0, 2, 0]];

const SOLVED: &[Solved] = &[
    // one pattern
    Solved {
        graph: RING,
        patterns: &[[A, P, X]],
        rows: &[&[(0, 1)], &[(0, 0)]],
    },
    // two patterns that share a variable
    Solved {
        graph: RING,
        patterns: &[[X, P, Y], [Y, P, Z]],
        rows: &[
            &[(0, 0), (1, 1), (2, 0)],
            &[(0, 1), (1, 0), (2, 1)],
            &[(0, 1), (1, 0), (2, 0)],
            &[(0, 0), (1, 0), (2, 1)],
            &[(0, 0), (1, 0), (2, 0)],
        ],
    },
    // a variable twice in one pattern
    Solved {
        graph: RING,
        patterns: &[[X, P, X]],
        rows: &[&[(0, 0)]],
    },
    // no patterns
    Solved {
        graph: RING,
        patterns: &[],
        rows: &[&[]],
    },
    // a term that is in no triple, and one that has no number
    Solved {
        graph: RING,
        patterns: &[[X, Q, Y]],
        rows: &[],
    },
    Solved {
        graph: RING,
        patterns: &[[X, P, Y], [Y, P, UNKNOWN]],
        rows: &[],
    },
];

pub(crate) fn uris(alloc: Global, texts: &[&[u8]]) -> Result<Interner, Fail> {
    let mut terms = TermList::new(alloc);
    for text in texts {
        terms.push(Term::uri(alloc, text)?)?;
    }
    let mut interner = Interner::new(alloc, 1_000);
    keep(&mut interner, terms)?;
    Ok(interner)
}

fn place(alloc: Global, spot: Spot) -> Result<Place, Fail> {
    match spot {
        Spot::Var(var) => Ok(Place::Var(Var(var))),
        Spot::Is(text) => Ok(Place::Is(Term::uri(alloc, text)?)),
    }
}

fn pattern(alloc: Global, spots: &[Spot; 3]) -> Result<PatternTriple, Fail> {
    let [subject, predicate, object] = *spots;
    Ok(PatternTriple {
        subject: place(alloc, subject)?,
        predicate: place(alloc, predicate)?,
        object: place(alloc, object)?,
    })
}

fn patterns(alloc: Global, table: &[[Spot; 3]]) -> Result<PatternList, Fail> {
    let mut patterns = PatternList::new(alloc);
    for spots in table {
        patterns.push(pattern(alloc, spots)?)?;
    }
    Ok(patterns)
}

fn row(alloc: Global, bindings: &[(u8, u32)]) -> Result<Mapping, Fail> {
    let mut row = Mapping::new(alloc);
    for (var, term) in bindings {
        if *var > 15 || row.get(Var(*var)).is_some() {
            return Err("no row".into());
        }
        row.bind(Var(*var), TermId(*term))?;
    }
    Ok(row)
}

fn is_named(place: &Place) -> bool
    ensures { IsTrue result → HasNamedPlace 16 place.now }
{
    match place {
        Place::Var(var) => var.0 < 16,
        Place::Is(_) => true,
    }
}

fn has_names(pattern: &PatternTriple) -> bool
    ensures { IsTrue result → HasNamedTriple 16 pattern.now }
{
    is_named(&pattern.subject) && is_named(&pattern.predicate) && is_named(&pattern.object)
}

fn have_names(patterns: &[PatternTriple]) -> bool
    ensures { IsTrue result → AllByRecursion (HasNamedTriple 16) patterns.now }
{
    match patterns.split_first() {
        None => true,
        Some((first, rest)) => has_names(first) && have_names(rest),
    }
}

fn is_uri(term: Option<&Term>) -> bool
    ensures { IsTrue result → IsSomeAnd (option_copied term.entry) IsUri }
{
    match term {
        None => false,
        Some(term) => term.is_uri(),
    }
}

fn is_meant<T: TermTable>(table: &T, triple: &IdTriple) -> bool
    ensures { IsTrue result → IsSome (triple_in (T.terms table.now) triple.now) }
{
    is_uri(table.term_of(triple.subject))
        && is_uri(table.term_of(triple.predicate))
        && table.term_of(triple.object).is_some()
}

/// Whether each triple of a view means a triple.
pub(crate) fn are_meant<T: TermTable, L: Ledger>(
    view: &View<'_, L>,
    table: &T,
    steps: &mut Steps<L>,
) -> bool
    ensures { IsTrue result → AreMeant (T.terms table.now) view.now }
{
    let mut rows = view.rows(&IdPattern {
        subject: None,
        predicate: None,
        object: None,
    });
    while let Some(row) = rows.next(steps) {
        if !is_meant(table, &row) {
            return false;
        }
    }
    true
}

fn solutions<T: TermTable, L: Ledger>(
    alloc: Global,
    graph: &IdTriples,
    patterns: &PatternList,
    table: &T,
    steps: &mut Steps<L>,
) -> Result<IdRows, Fail> {
    let index = index_of(alloc, graph, steps)?;
    let view = View::plain(&index);
    if !are_meant(&view, table, steps) {
        return Err("no graph".into());
    }
    if !have_names(patterns.as_slice()) {
        return Err("no names".into());
    }
    Ok(bgp_all(alloc, &view, table, patterns, steps)?)
}

/// Whether these are the rows, each once.
fn are_rows(alloc: Global, rows: &IdRows, wanted: &[&[(u8, u32)]]) -> Result<bool, Fail> {
    let mut same = rows.len() == wanted.len();
    for bindings in wanted {
        same &= rows.contains(&row(alloc, bindings)?);
    }
    Ok(same)
}

fn is_solved<T: TermTable, L: Ledger>(
    alloc: Global,
    case: &Solved,
    table: &T,
    steps: &mut Steps<L>,
) -> Result<bool, Fail> {
    let graph = triples(alloc, case.graph)?;
    let patterns = patterns(alloc, case.patterns)?;
    let rows = solutions(alloc, &graph, &patterns, table, steps)?;
    are_rows(alloc, &rows, case.rows)
}

fn all_solved<L: Ledger>(rt: &impl Abort, alloc: Global, blank: Blank) -> Result<(), Fail>
    requires name { blank.name ≡ L.name }
    requires parts { blank.parts ≡ L.parts }
    requires some { 0 < L.parts }
{
    let mut steps = Steps::<L>::new(blank);
    let table = uris(alloc, URIS)?;
    for (at, case) in SOLVED.iter().enumerate() {
        let holds = is_solved(alloc, case, &table, &mut steps)?;
        assert_eq!(rt; (at, holds), (at, true));
    }
    Ok(())
}

#[test]
fn solves_basic_graph_patterns(rt: HostRuntime) -> Result<(), Fail> {
    all_solved::<Brand>(&rt, rt.alloc(), Blank::new(1))
}

// The terms of a pattern, in memory of their own.
fn constants_of(alloc: Global, pattern: &Algebra) -> Result<TermList, NoMemory> {
    let mut terms = TermList::new(alloc);
    pattern.constants(&mut terms)?;
    Ok(terms)
}

fn is_uri_of(term: Option<&Term>, text: &[u8]) -> bool {
    match term {
        Some(Term::Uri(found)) => found.as_bytes() == text,
        Some(Term::Literal(_)) => false,
        None => false,
    }
}

// The second and the third of three terms that patterns name.
fn are_named(alloc: Global, table: &[[Spot; 3]], texts: [&[u8]; 2]) -> Result<bool, Fail> {
    let pattern = Algebra::Bgp(patterns(alloc, table)?);
    let found = constants_of(alloc, &pattern);
    drop(pattern);
    let terms = found?;
    Ok(terms.len() == 3 && is_uri_of(terms.get(1), texts[0]) && is_uri_of(terms.get(2), texts[1]))
}

#[test]
fn a_pattern_names_its_terms_as_they_are_written(rt: HostRuntime) -> Result<(), Fail> {
    let named = are_named(rt.alloc(), &[[X, P, Y], [Y, P, A]], [b"p", b"a"])?;
    assert!(rt; named);
    Ok(())
}
