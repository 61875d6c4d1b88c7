//! The form of an answer, told as columns.
ghost use Rattle.std.specs.Prelude.{◌≡◌, IfOk, IsTrue};
ghost use Rattle.ssap_shape.specs.Plain.{is_plain};
ghost use Rattle.kp_client.specs.Mirroring.{are_columns as columns_agree, have_one_form as forms_agree, form_of, triple_columns as columns_of_triples};

use answer_bodies::Answer;
use m3_terms::{Columns, NoMemory, TermFault, Text};
use std::alloc::Global;

fn are_columns(columns: &Columns, names: &Columns) -> bool
    ensures { result ≡ columns_agree columns.now names.now }
{
    columns == names
}

/// Whether both answers are triples, or both are tables of equal columns.
pub fn have_one_form(answer: &Answer, other: &Answer) -> bool
    ensures { result ≡ forms_agree answer.now other.now }
{
    match answer {
        Answer::Triples(_) => match other {
            Answer::Triples(_) => true,
            Answer::Table { .. } => false,
        },
        Answer::Table { columns, .. } => match other {
            Answer::Triples(_) => false,
            Answer::Table { columns: names, .. } => are_columns(columns, names),
        },
    }
}

fn word(alloc: Global, bytes: &[u8]) -> Result<Text, NoMemory>
    requires { IsTrue (is_plain bytes.now) }
    ensures { IfOk result (λ text. text ≡ bytes.now) }
{
    match Text::read(alloc, bytes) {
        Ok(text) => Ok(text),
        Err(TermFault::NoMemory) => Err(NoMemory),
        Err(TermFault::Empty) => unreachable!(),
        Err(TermFault::TooLong { .. }) => unreachable!(),
        Err(TermFault::NotText { .. }) => unreachable!(),
    }
}

#[tactic(auto, unfolding(crate::specs::Mirroring::triple_columns))]
fn triple_columns(alloc: Global) -> Result<Columns, NoMemory>
    ensures { IfOk result (λ columns. columns ≡ columns_of_triples) }
{
    let mut columns = Columns::new(alloc);
    columns.push(word(alloc, b"subject")?)?;
    columns.push(word(alloc, b"predicate")?)?;
    columns.push(word(alloc, b"object")?)?;
    columns.push(word(alloc, b"object")?)?;
    Ok(columns)
}

fn copied(alloc: Global, columns: &Columns) -> Result<Columns, NoMemory>
    ensures { IfOk result (λ copied. copied ≡ columns.now) }
{
    let mut copied = Columns::new(alloc);
    for name in columns.as_slice() {
        copied.push(name.copy()?)?;
    }
    Ok(copied)
}

/// The form of an answer: the columns of a table, or for triples `subject`, `predicate`, `object` and `object`.
pub fn form(alloc: Global, answer: &Answer) -> Result<Columns, NoMemory>
    ensures { IfOk result (λ columns. columns ≡ form_of answer.now) }
{
    match answer {
        Answer::Triples(_) => triple_columns(alloc),
        Answer::Table { columns, .. } => copied(alloc, columns),
    }
}
