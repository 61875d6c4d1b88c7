ghost use Rattle.std.specs.Prelude.{◌≡◌, IfOk, IfSome, IfNone};
ghost use Rattle.answer_bodies.specs.Writing.{IsFull, body_of};
ghost use Rattle.answer_bodies.specs.Reading.{IsReadAs, HasNoAnswer};
ghost use Rattle.answer_bodies.specs.WhyNot.{WhyNot};

use crate::{read, write};
use m3_terms::{Columns, NoMemory, Rows, Triples};
use ssap_items::Body;
use std::alloc::Global;

/// The answer to a query: triples, or a table with one cell for each column in each row.
#[derive(Debug, Drop)]
pub enum Answer {
    Triples(Triples),
    Table { columns: Columns, rows: Rows },
}

/// How one answer differs from an earlier one: what was added, and what is obsolete.
#[derive(Debug, Drop)]
pub struct Difference {
    pub added: Answer,
    pub obsolete: Answer,
}

impl Answer {
    /// The body of a message that carries the answer: its triples, or its table, whose rows have their bound cells in the
    /// order of columns.
    pub fn to_body(&self, alloc: Global) -> Result<Body, NoMemory>
        requires { IsFull self.now }
        ensures { IfOk result (λ body. body ≡ body_of self.now) }
    {
        match self {
            Answer::Triples(triples) => { Ok(Body::Triples(write::raw_triples(alloc, triples)?)) }
            Answer::Table { columns, rows } => {
                Ok(Body::Table(write::raw_table(alloc, columns, rows)?))
            }
        }
    }

    /// The answer that the body carries, with its triples or rows in their order. A cell that a row doesn't name is
    /// unbound. None exactly where the body is a text; where a term is a `bnode`, an empty uri or longer than 4,096
    /// bytes; where a subject is a literal; where a column is doubled; where a row names a column twice or names none
    /// of the columns; or where a triple or a row is doubled.
    pub fn of_body(alloc: Global, body: &Body) -> Result<Option<Answer>, NoMemory>
        ensures some { IfOk result (λ read. IfSome read (IsReadAs body.now)) }
        ensures full { IfOk result (λ read. IfSome read IsFull) }
        ensures none { IfOk result (λ read. IfNone read (HasNoAnswer body.now)) }
        ensures why { IfOk result (λ read. IfNone read (WhyNot body.now)) }
    {
        match body {
            Body::Text(_) => Ok(None),
            Body::Triples(triples) => read::triples(alloc, triples),
            Body::Table(table) => read::table(alloc, table),
        }
    }
}
