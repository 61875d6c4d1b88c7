//! The texts and terms of the requests.
ghost use Rattle.std.specs.Prelude.{◌≡◌, ◌<◌, ◌++◌, IfOk, IsTrue};
ghost use Rattle.std.specs.Fmt.{decimal};
ghost use Rattle.ssap_shape.specs.Plain.{is_plain};
ghost use Rattle.made_script.specs.Made.{made_node, made_space as name_of_space, subject_of, predicate_of, object_of, optional_text as text_of_optional};

use m3_terms::{NoMemory, Term, TermFault, Text};
use std::alloc::Global;

/// The text of a plain word.
fn plain(alloc: Global, word: &[u8]) -> Result<Text, NoMemory>
    requires { IsTrue (is_plain word.now) }
    ensures { IfOk result (λ text. text ≡ word.now) }
{
    match Text::read(alloc, word) {
        Ok(text) => Ok(text),
        Err(TermFault::NoMemory) => Err(NoMemory),
        Err(TermFault::Empty) => unreachable!(),
        Err(TermFault::TooLong { .. }) => unreachable!(),
        Err(TermFault::NotText { .. }) => unreachable!(),
    }
}

/// The node of all requests.
#[tactic(auto, unfolding(crate::specs::Made::made_node))]
pub fn node(alloc: Global) -> Result<Text, NoMemory>
    ensures { IfOk result (λ text. text ≡ made_node) }
{
    plain(alloc, b"w")
}

/// The name of the space of all requests, `trial`.
#[tactic(auto, unfolding(crate::specs::Made::made_space))]
pub fn made_space(alloc: Global) -> Result<Text, NoMemory>
    ensures name { IfOk result (λ text. text ≡ name_of_space) }
{
    plain(alloc, b"trial")
}

/// A letter and a number in decimal.
fn numbered(alloc: Global, letter: &str, number: u64) -> Result<Text, NoMemory>
    requires { IsTrue (is_plain letter.now) }
    ensures { IfOk result (λ text. text ≡ letter.now ++ decimal number) }
{
    let text = format!(in alloc; "{letter}{number}")?;
    plain(alloc, text.as_bytes())
}

/// One of 40 subjects.
pub fn subject(alloc: Global, number: u64) -> Result<Term, NoMemory>
    ensures { IfOk result (λ term. term ≡ subject_of number) }
{
    Ok(Term::Uri(numbered(alloc, "s", number % 40)?))
}

/// One of 5 predicates.
pub fn predicate(alloc: Global, number: u64) -> Result<Term, NoMemory>
    ensures { IfOk result (λ term. term ≡ predicate_of number) }
{
    Ok(Term::Uri(numbered(alloc, "p", number % 5)?))
}

/// One of 11 objects.
pub fn object(alloc: Global, number: u64) -> Result<Term, NoMemory>
    ensures { IfOk result (λ term. term ≡ object_of number) }
{
    Ok(Term::Literal(numbered(alloc, "o", number % 11)?))
}

/// The query in SPARQL for what has one predicate, with what it has by the next one, if any.
#[tactic(auto, unfolding(crate::specs::Made::optional_text))]
pub fn optional_text(alloc: Global, number: u64) -> Result<Text, NoMemory>
    requires { number < 50 }
    ensures { IfOk result (λ text. text ≡ text_of_optional number) }
{
    let first = number % 5;
    let next = (number + 1) % 5;
    let text = format!(in alloc;
        "SELECT DISTINCT ?s ?o ?z {{ ?s <p{first}> ?o OPTIONAL {{ ?s <p{next}> ?z }} }}"
    )?;
    plain(alloc, text.as_bytes())
}
