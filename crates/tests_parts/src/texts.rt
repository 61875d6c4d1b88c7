//! Texts of queries: what faults in them, and what they say.
use m3_terms::NoMemory;
use sparql_algebra::{Algebra, Query};
use sparql_read::read_query;
use sparql_text::{Judged, Limit, judge};
use std::alloc::Global;
use std::test::Fail;

/// A text, and what is judged of it.
type Verdict = (&'static [u8], Judged);

const VERDICTS: [Verdict; 9] = [
    (b"SELECT DISTINCT * {}", Judged::Fine { distinct: true }),
    (b"SELECT ?s { ?s ?p ?o }", Judged::Fine { distinct: false }),
    (b"SELECTED", Judged::NotInProfile { place: 6 }),
    (
        b"SELECT DISTINCT ?s { ?s ?p _:b }",
        Judged::NotInProfile { place: 27 },
    ),
    (
        b"SELECT DISTINCT * { ?s p:q ?o }",
        Judged::NotInProfile { place: 23 },
    ),
    (
        b"PREFIX p: <i> SELECT DISTINCT * { ?s p:q ?o }",
        Judged::Fine { distinct: true },
    ),
    (b"SELECT DISTINCT * ", Judged::NotInProfile { place: 18 }),
    (
        b"SELECT DISTINCT * {{{{{{{{{{{{{{{{{}}}}}}}}}}}}}}}}}",
        Judged::OverLimit {
            which: Limit::Nesting,
            place: 34,
        },
    ),
    (
        b"SELECT DISTINCT ?a?b?c?d?e?f?g?h?i?j?k?l?m?n?o?p?q {}",
        Judged::OverLimit {
            which: Limit::Variables,
            place: 48,
        },
    ),
];

#[test]
fn texts_are_judged(rt: HostRuntime) -> Result<(), Fail> {
    for (text, expected) in VERDICTS {
        let judgement = judge(rt.alloc(), text)?;
        assert_eq!(rt; judgement.judged, expected);
    }
    Ok(())
}

// A text with so many conditions.
fn filters(alloc: Global, count: usize) -> Result<Vec<u8>, NoMemory> {
    let mut text = Vec::new(alloc);
    text.extend_from_slice(b"SELECT DISTINCT * {")?;
    for _ in 0..count {
        text.extend_from_slice(b"FILTER(\"\")")?;
    }
    text.extend_from_slice(b"}")?;
    Ok(text)
}

#[test]
fn conditions_have_a_limit(rt: HostRuntime) -> Result<(), Fail> {
    let alloc = rt.alloc();
    let most = filters(alloc, 256)?;
    let judgement = judge(alloc, most.as_slice())?;
    assert_eq!(rt; judgement.judged, Judged::Fine { distinct: true });
    let more = filters(alloc, 257)?;
    let judgement = judge(alloc, more.as_slice())?;
    let which = Limit::Conditions;
    assert_eq!(rt; judgement.judged, Judged::OverLimit { which, place: 2579 });
    Ok(())
}

/// The operator at the top of a pattern.
fn top(query: &Query) -> u8 {
    match query.pattern {
        Algebra::Bgp(_) => b'B',
        Algebra::Join(_, _) => b'J',
        Algebra::Union(_, _) => b'U',
        Algebra::LeftJoin(_, _, _) => b'L',
        Algebra::Filter(_, _) => b'F',
    }
}

/// A text, how many variables and columns its query has, and the operator at its top.
type Said = (&'static [u8], usize, usize, u8);

const QUERIES: [Said; 8] = [
    (
        b"SELECT DISTINCT ?s ?n WHERE { ?s <state> \"on\" OPTIONAL { ?s <name> ?n } }",
        2,
        2,
        b'L',
    ),
    (
        b"SELECT DISTINCT ?s { { ?s <a> \"1\" } UNION { ?s <b> \"1\" } }",
        1,
        1,
        b'U',
    ),
    (
        b"SELECT DISTINCT ?x ?y { ?x <p> ?z OPTIONAL { ?x <q> ?y } FILTER (!bound(?y) || ?y = \"\") }",
        3,
        2,
        b'F',
    ),
    (
        b"SELECT DISTINCT ?x ?w { ?x <p> ?v OPTIONAL { ?x <q> ?w FILTER (?w < ?v) } }",
        3,
        2,
        b'L',
    ),
    (
        b"SELECT DISTINCT ?s { ?s <p> ?o . FILTER CONTAINS(?o, \"n\") }",
        2,
        1,
        b'F',
    ),
    (b"SELECTDISTINCT*{}", 0, 0, b'B'),
    (b"SELECT DISTINCT ?a ?a { ?a ?b ?c }", 3, 1, b'B'),
    (
        b"PREFIX : <room/> select distinct * where { { ?s a :lamp } { ?s :in 'hall' } } # all",
        1,
        1,
        b'J',
    ),
];

// Whether a text says a query of so many variables and columns, with this operator at its top.
fn says(alloc: Global, said: Said) -> bool {
    let (text, names, columns, operator) = said;
    match read_query(alloc, text) {
        Ok(query) => {
            query.names.len() == names && query.columns.len() == columns && top(&query) == operator
        }
        Err(_) => false,
    }
}

#[test]
fn texts_say_queries(rt: HostRuntime) -> Result<(), Fail> {
    for said in QUERIES {
        assert!(rt; says(rt.alloc(), said));
    }
    Ok(())
}
