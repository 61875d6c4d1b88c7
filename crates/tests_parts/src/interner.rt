//! Terms are drafted, refused and kept, each under one number.

use m3_intern::{InternFault, Interner, TermKeys};
use m3_terms::{Term, TermList, TermTable};
use std::alloc::Global;
use std::test::Fail;

const LIMIT: u64 = 100;

// The literals that are wanted, and what they and the kept terms cost together.
const ROWS: &[(&[&[u8]], u64)] = &[
    (&[b"aa"], 34),
    (&[b"bb", b"aa", b"bb"], 68),
    (&[b"cc"], 102),
    (&[b"bb", b"aa"], 68),
    (&[b""], 100),
    (&[b"", b"d", b"aa"], 133),
    (&[], 100),
];

fn literals(alloc: Global, texts: &[&[u8]]) -> Result<TermList, Fail> {
    let mut terms = TermList::new(alloc);
    for text in texts {
        terms.push(Term::literal(alloc, text)?)?;
    }
    Ok(terms)
}

// Keeps the wanted terms, and says what all kept terms cost then.
pub(crate) fn keep(interner: &mut Interner, wanted: TermList) -> Result<u64, InternFault> {
    let draft = interner.draft(wanted)?;
    interner.reserve_for(&draft)?;
    interner.commit(draft);
    Ok(interner.used())
}

#[test]
fn terms_are_kept_up_to_the_limit(rt: HostRuntime) -> Result<(), Fail> {
    let mut interner = Interner::new(rt.alloc(), LIMIT);
    for (texts, need) in ROWS {
        let before = interner.used();
        let kept = keep(&mut interner, literals(rt.alloc(), texts)?);
        if *need > LIMIT {
            assert_eq!(rt; kept, Err(InternFault::Full { need: *need }));
            assert_eq!(rt; interner.used(), before);
        } else {
            assert_eq!(rt; kept, Ok(*need));
        }
    }
    Ok(())
}

// The number of a literal in a table that gives the literal back under it.
fn number<T: TermTable>(alloc: Global, table: &T, text: &[u8]) -> Result<Option<u32>, Fail> {
    let term = Term::literal(alloc, text)?;
    match table.id_of(&term) {
        Some(id) if table.term_of(id) == Some(&term) => Ok(Some(id.0)),
        Some(_) => Err("another term".into()),
        None => Ok(None),
    }
}

type Numbers = [Option<u32>; 3];

// The numbers of `aa`, `cc` and `dd` in a table.
fn numbers<T: TermTable>(alloc: Global, table: &T) -> Result<Numbers, Fail> {
    let aa = number(alloc, table, b"aa")?;
    let cc = number(alloc, table, b"cc")?;
    let dd = number(alloc, table, b"dd")?;
    Ok([aa, cc, dd])
}

// Keeps `aa`, then `bb` and `cc`. Gives the numbers before, those that the draft tells, and those that the terms have then.
fn grow(alloc: Global, mut interner: Interner) -> Result<[Numbers; 3], Fail> {
    keep(&mut interner, literals(alloc, &[b"aa"])?)?;
    let draft = interner.draft(literals(alloc, &[b"bb", b"aa", b"cc"])?)?;
    interner.reserve_for(&draft)?;
    let before = numbers(alloc, &interner)?;
    let drafted = numbers(alloc, &draft.with(&interner))?;
    interner.commit(draft);
    Ok([before, drafted, numbers(alloc, &interner)?])
}

#[test]
fn a_draft_tells_the_numbers_that_its_terms_get(rt: HostRuntime) -> Result<(), Fail> {
    let alloc = rt.alloc();
    let before = [Some(0), None, None];
    let then = [Some(0), Some(2), None];
    let wanted = [before, then, then];
    assert_eq!(rt; grow(alloc, Interner::new(alloc, 1_000))?, wanted);
    let keys = TermKeys { key0: 7, key1: 9 };
    assert_eq!(rt; grow(alloc, Interner::keyed(alloc, 1_000, keys))?, wanted);
    Ok(())
}
