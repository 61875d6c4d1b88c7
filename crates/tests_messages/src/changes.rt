//! How answers differ.
ghost use Rattle.std.specs.Prelude.{◌≡◌, ◌∷◌, [], IfOk};

use answer_bodies::{Answer, difference, differences_lead_on};
use m3_terms::{NoMemory, Term, Triple, Triples};
use std::alloc::Global;
use std::test::Fail;

fn triple(alloc: Global, object: &[u8]) -> Result<Triple, Fail> {
    let subject = Term::uri(alloc, b"a")?;
    let predicate = Term::uri(alloc, b"p")?;
    let object = Term::literal(alloc, object)?;
    Ok(Triple::new(subject, predicate, object).ok_or("no triple")?)
}

fn only(alloc: Global, triple: Triple) -> Result<Triples, NoMemory>
    ensures { IfOk result (λ triples. triples ≡ triple ∷ []) }
{
    let mut triples = Triples::new(alloc);
    triples.push(triple)?;
    Ok(triples)
}

// Whether an answer is of one triple with this object.
fn is_of(answer: &Answer, object: &[u8]) -> bool {
    match answer {
        Answer::Triples(triples) => match triples.get(0) {
            Some(found) => triples.len() == 1 && is_text(&found.object, object),
            None => false,
        },
        Answer::Table { .. } => false,
    }
}

fn is_text(term: &Term, text: &[u8]) -> bool {
    match term {
        Term::Literal(found) => found.as_bytes() == text,
        Term::Uri(_) => false,
    }
}

// The answer of one triple after its difference from that of another.
fn changed(alloc: Global, first: Triple, second: Triple) -> Result<Answer, NoMemory> {
    let mut answer = Answer::Triples(only(alloc, first)?);
    let after = Answer::Triples(only(alloc, second)?);
    differences_lead_on();
    let found = difference(alloc, &answer, &after)?;
    answer.fold(alloc, &found)?;
    Ok(answer)
}

#[test]
fn a_difference_leads_from_one_answer_to_another(rt: HostRuntime) -> Result<(), Fail> {
    let alloc = rt.alloc();
    let answer = changed(alloc, triple(alloc, b"on")?, triple(alloc, b"off")?)?;
    assert!(rt; is_of(&answer, b"off"));
    Ok(())
}
