//! Texts, terms, triples, patterns and lists: outside vectors, and each public function once.
ghost use Rattle.std.specs.Prelude.{◌≡◌, ◌<◌, ◌==◌, if◌then◌else◌, Some, None};

use indexmap::IndexMap;
use m3_terms::{
    Bytes, Columns, NoMemory, Pattern, Patterns, Row, Rows, Slot, Steps, TERM_LIMIT, Term,
    TermFault, TermId, TermList, TermTable, Text, Triple, Triples, text_len,
};
use std::alloc::Global;
use std::cmp::Ordering;
use std::hash::RandomState;
use std::marker::Brand;
use std::sync::ledger::{Blank, Ledger};
use std::test::Fail;

/// Bytes, and the length of the longest prefix that is a text.
const TEXTS: [(&[u8], usize); 9] = [
    (b"", 0),
    (b"\xC3\xA9\n<]", 5),
    (b"\xC3", 0),
    (b"a\x00", 1),
    (b"\xEF\xBF\xBE", 0),
    (b"\xEF\xBF\xBD", 3),
    (b"\xC3\xA9\xED\xA0\x80", 2),
    (b"0123456789abcdef0123456789abcdef\t\x7F\x1F", 34),
    (b"0123456789abcdef0123456789abcdef-\xF0\x9F\x98\x80\xFF", 37),
];

/// Reads a text, and answers the length of the longest prefix that is one.
fn read_len(alloc: Global, bytes: &[u8]) -> Option<usize> {
    match Text::read(alloc, bytes) {
        Ok(text) => Some(text.copy().ok()?.len()),
        Err(TermFault::NotText { place }) => Some(place),
        Err(_) => None,
    }
}

#[test]
fn reads_texts(rt: HostRuntime) {
    let alloc = rt.alloc();
    for (bytes, wanted) in TEXTS.as_slice() {
        assert_eq!(rt; text_len(bytes), *wanted);
        assert_eq!(rt; read_len(alloc, bytes), Some(*wanted));
    }
}

/// Why a text makes no term of a kind, or what it makes.
fn made(alloc: Global, is_uri: bool, bytes: &[u8]) -> Result<bool, TermFault> {
    let term = if is_uri {
        Term::uri(alloc, bytes)?
    } else {
        Term::literal(alloc, bytes)?
    };
    Ok(term.is_uri())
}

/// A kind of term, bytes and the fault that they have, as it is printed.
const FAULTS: [(bool, &[u8], &str); 3] = [
    (true, b"", "a uri without a byte"),
    (true, b"a\x0B", "no allowed character at byte 1"),
    (false, b"\xC3", "no allowed character at byte 0"),
];

#[test]
fn makes_terms(rt: HostRuntime) -> Result<(), Fail> {
    let alloc = rt.alloc();
    for (is_uri, bytes, wanted) in FAULTS.as_slice() {
        let Err(fault) = made(alloc, *is_uri, bytes) else {
            return Err(Fail::from("a term of what is none"));
        };
        assert_eq!(rt; format!(in alloc; "{fault}")?.as_str(), *wanted);
    }
    let longer = vec![in alloc; b'a'; TERM_LIMIT + 1]?;
    let (longest, _) = longer.split_at(4096);
    for is_uri in [false, true] {
        assert!(rt; made(alloc, is_uri, longest)? == is_uri);
        let fault = made(alloc, is_uri, &longer).err();
        assert!(rt; matches!(fault, Some(TermFault::TooLong { length: 4097 })));
    }
    Ok(())
}

/// The uri `s`, the uri `p` and the literal `s`.
fn three_terms(alloc: Global) -> Result<(Term, Term, Term), TermFault> {
    Ok((
        Term::uri(alloc, b"s")?,
        Term::uri(alloc, b"p")?,
        Term::literal(alloc, b"s")?,
    ))
}

/// The triple of the uris `s` and `p` and the literal `s`.
fn one_triple(alloc: Global) -> Result<Triple, Fail> {
    let (subject, predicate, object) = three_terms(alloc)?;
    Ok(Triple::new(subject, predicate, object).ok_or("no triple")?)
}

#[test]
fn makes_triples(rt: HostRuntime) -> Result<(), Fail> {
    let triple = one_triple(rt.alloc())?;
    assert!(rt; triple.copy()? == triple);
    let (first, second, literal) = three_terms(rt.alloc())?;
    assert!(rt; Triple::new(literal, first, second).is_none());
    let (first, second, literal) = three_terms(rt.alloc())?;
    assert!(rt; Triple::new(first, literal, second).is_none());
    Ok(())
}

#[test]
fn fits_patterns(rt: HostRuntime) -> Result<(), Fail> {
    let triple = one_triple(rt.alloc())?;
    let pattern = Pattern {
        subject: Slot::Is(triple.subject.copy()?),
        predicate: Slot::Any,
        object: Slot::Any,
    };
    assert!(rt; pattern.copy()?.fits(&triple));
    assert!(rt; !pattern.subject.admits(&triple.object));
    assert!(rt; pattern.object.admits(&triple.object));
    assert!(rt; pattern.into_triple().is_none());
    Ok(())
}

/// Whether each of these comes before the next, by all comparisons.
fn are_in_order<T: Ord>(items: &[T]) -> bool {
    items.windows(2).all(|two| {
        two[0] < two[1]
            && two[0] != two[1]
            && two[1].cmp(&two[0]) == Ordering::Greater
            && two[0].partial_cmp(&two[0]) == Some(Ordering::Equal)
    })
}

#[test]
fn keeps_the_order(rt: HostRuntime) -> Result<(), Fail> {
    let alloc = rt.alloc();
    let texts = [Text::read(alloc, b"ab")?, Text::read(alloc, b"b")?];
    assert!(rt; are_in_order(&texts));
    let (subject, predicate, object) = three_terms(alloc)?;
    assert!(rt; are_in_order(&[predicate, subject, object]));
    let mut later = one_triple(alloc)?;
    later.object = Term::literal(alloc, b"t")?;
    assert!(rt; are_in_order(&[one_triple(alloc)?, later]));
    Ok(())
}

#[test]
fn keeps_lists(rt: HostRuntime) -> Result<(), Fail> {
    let alloc = rt.alloc();
    let mut unbound = Row::new(alloc);
    assert!(rt; unbound.is_empty());
    unbound.push(None)?;
    let mut bound = Row::new(alloc);
    bound.push(Some(Term::uri(alloc, b"a")?))?;
    assert!(rt; unbound < bound && unbound != bound);
    let mut rows = Rows::from_vec(Vec::new(alloc));
    rows.push(unbound)?;
    rows.push(bound)?;
    assert_eq!(rt; (rows.len(), rows.as_slice().len()), (2, 2));
    assert!(rt; rows.get(1).is_some_and(|row| row.get(0).is_some()));
    assert_eq!(rt; rows.into_vec().len(), 2);
    let mut bytes = Bytes::new(alloc);
    bytes.push(7)?;
    assert_eq!(rt;
        (bytes.is_empty(), bytes.get(0), bytes.len()),
        (false, Some(&7), 1)
    );
    let again = Bytes::from_slice(alloc, bytes.as_slice())?;
    assert_eq!(rt;
        Bytes::from_vec(again.into_vec()).as_slice(),
        [7].as_slice()
    );
    Ok(())
}

/// A list of one item.
fn one_item<T: Drop>(alloc: Global, item: T) -> Result<m3_terms::Items<T>, NoMemory> {
    let mut items = m3_terms::Items::new(alloc);
    items.push(item)?;
    Ok(items)
}

#[test]
fn names_lists(rt: HostRuntime) -> Result<(), Fail> {
    let alloc = rt.alloc();
    let any = Pattern {
        subject: Slot::Any,
        predicate: Slot::Any,
        object: Slot::Any,
    };
    let triples: Triples = one_item(alloc, one_triple(alloc)?)?;
    let patterns: Patterns = one_item(alloc, any)?;
    let terms: TermList = one_item(alloc, Term::uri(alloc, b"a")?)?;
    let columns: Columns = one_item(alloc, Text::read(alloc, b"x")?)?;
    assert_eq!(rt;
        (triples.len(), patterns.len(), terms.len(), columns.len()),
        (1, 1, 1, 1)
    );
    Ok(())
}

/// Counts one step.
fn count_one<L: Ledger>(blank: Blank)
    requires name { blank.name ≡ L.name }
    requires parts { blank.parts ≡ L.parts }
    requires some { 0 < L.parts }
{
    let mut steps = Steps::<L>::new(blank);
    steps.tick();
}

#[test]
fn counts_steps() {
    count_one::<Brand>(Blank::new(1));
}

/// A table that holds one term, under the number 0.
#[derive(Drop)]
struct OneTerm {
    term: Term,
}

impl TermTable for OneTerm {
    ghost terms = { λ table n. if n == 0 then Some table.term else None };

    fn id_of(&self, term: &Term) -> Option<TermId> {
        if self.term == *term {
            Some(TermId(0))
        } else {
            None
        }
    }

    fn term_of(&self, id: TermId) -> Option<&Term> {
        if id.0 == 0 { Some(&self.term) } else { None }
    }
}

/// Whether a term's number leads back to the term.
fn leads_back<T: TermTable>(table: &T, term: &Term) -> bool {
    match table.id_of(term) {
        Some(id) => table.term_of(id).is_some_and(|found| found == term),
        None => false,
    }
}

#[test]
fn finds_terms(rt: HostRuntime) -> Result<(), Fail> {
    let alloc = rt.alloc();
    let table = OneTerm {
        term: Term::uri(alloc, b"a")?,
    };
    assert!(rt; leads_back(&table, &table.term));
    assert!(rt; !leads_back(&table, &Term::literal(alloc, b"a")?));
    assert!(rt; table.term_of(TermId(1)).is_none());
    Ok(())
}

#[test]
fn terms_are_keys_under_a_keyed_hash(rt: HostRuntime) -> Result<(), Fail> {
    let alloc = rt.alloc();
    let (uri, _, literal) = three_terms(alloc)?;
    let mut numbers = IndexMap::with_hasher(alloc, RandomState::new(&rt)?);
    numbers.insert(uri.copy()?, 1u32)?;
    numbers.insert(literal.copy()?, 2)?;
    numbers.insert(uri.copy()?, 3)?;
    assert_eq!(rt;
        (numbers.get(&uri), numbers.get(&literal), numbers.len()),
        (Some(&3), Some(&2), 2)
    );
    Ok(())
}
