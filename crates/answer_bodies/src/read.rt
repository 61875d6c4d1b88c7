//! The answer of a body.
ghost use Rattle.std.specs.Prelude.{◌≡◌, false, IfOk, MatchOption, MatchBool};
ghost use Rattle.std.specs.List.{AllByRecursion, AllZip, Any, list_any};
ghost use Rattle.m3_terms.specs.Order.{text_eq};
ghost use Rattle.answer_bodies.specs.Reading.{IsTermOf, IsTripleOf, IsCellOf, IsRowOf, IsKnown, IsReadAs, named};
ghost use Rattle.answer_bodies.specs.Found.{IsFound};
ghost use Rattle.answer_bodies.specs.WhyNot.{IsRefused, IsNoTriple, IsNoCell, IsNoRow, AreNoTriples, IsNoTable};

use crate::Answer;
use crate::lists::{are_distinct, ordered};
use crate::write::copied;
use m3_terms::{Columns, NoMemory, Row, Rows, Term, TermFault, Text, Triple, Triples};
use ssap_items::{Body, Kind, RawRow, RawRows, RawTable, RawTerm, RawTriple, RawTriples};
use std::alloc::Global;

fn uri(alloc: Global, text: &Text) -> Result<Option<Term>, NoMemory>
    ensures { IfOk result (λ read. MatchOption read (IsRefused Kind.Uri text.now) (IsTermOf Kind.Uri text.now)) }
{
    match Term::uri(alloc, text.as_bytes()) {
        Ok(term) => Ok(Some(term)),
        Err(TermFault::NoMemory) => Err(NoMemory),
        Err(_) => Ok(None),
    }
}

fn literal(alloc: Global, text: &Text) -> Result<Option<Term>, NoMemory>
    ensures { IfOk result (λ read. MatchOption read (IsRefused Kind.Literal text.now) (IsTermOf Kind.Literal text.now)) }
{
    match Term::literal(alloc, text.as_bytes()) {
        Ok(term) => Ok(Some(term)),
        Err(TermFault::NoMemory) => Err(NoMemory),
        Err(_) => Ok(None),
    }
}

fn term(alloc: Global, raw: &RawTerm) -> Result<Option<Term>, NoMemory>
    ensures { IfOk result (λ read. MatchOption read (IsRefused raw.now.kind raw.now.text) (IsTermOf raw.now.kind raw.now.text)) }
{
    match raw.kind {
        Kind::Uri => uri(alloc, &raw.text),
        Kind::Literal => literal(alloc, &raw.text),
        Kind::Bnode => Ok(None),
    }
}

fn triple(alloc: Global, raw: &RawTriple) -> Result<Option<Triple>, NoMemory>
    ensures { IfOk result (λ read. MatchOption read (IsNoTriple raw.now) (IsTripleOf raw.now)) }
{
    let Some(subject) = term(alloc, &raw.subject)? else {
        return Ok(None);
    };
    let Some(predicate) = uri(alloc, &raw.predicate)? else {
        return Ok(None);
    };
    let Some(object) = term(alloc, &raw.object)? else {
        return Ok(None);
    };
    Ok(Triple::new(subject, predicate, object))
}

/// The triples in the order of the body.
fn given_triples(alloc: Global, raws: &RawTriples) -> Result<Option<Triples>, NoMemory>
    ensures { IfOk result (λ read. MatchOption read (Any IsNoTriple raws.now) (AllZip IsTripleOf raws.now)) }
{
    let mut given = Triples::new(alloc);
    for raw in raws.as_slice() {
        match triple(alloc, raw)? {
            Some(triple) => given.push(triple)?,
            None => return Ok(None),
        }
    }
    Ok(Some(given))
}

/// The answer of triples.
pub fn triples(alloc: Global, raws: &RawTriples) -> Result<Option<Answer>, NoMemory>
    ensures { IfOk result (λ read. MatchOption read (AreNoTriples raws.now) (IsReadAs (Body.Triples raws.now))) }
{
    let Some(given) = given_triples(alloc, raws)? else {
        return Ok(None);
    };
    match ordered(given)? {
        Some(triples) => Ok(Some(Answer::Triples(triples))),
        None => Ok(None),
    }
}

/// Whether each binding names one of the columns.
fn are_known(columns: &Columns, cells: &RawRow) -> bool
    ensures { MatchBool result (AllByRecursion (IsKnown columns.now) cells.now) (Any (λ cell. list_any (λ name. text_eq name cell.name) columns.now ≡ false) cells.now) }
{
    for cell in cells.as_slice() {
        if !columns.as_slice().contains(&cell.name) {
            return false;
        }
    }
    true
}

/// What a scan for a name finds among a row's bindings: none, the value of one, or that there are more.
#[derive(Clone, Copy)]
enum Found<'a> {
    None,
    One(&'a RawTerm),
    More,
}

fn find<'a>(cells: &'a RawRow, name: &Text) -> Found<'a>
    ensures { IsFound (named name.now cells.now) result }
{
    let mut found = Found::None;
    for cell in cells.as_slice() {
        if cell.name == *name {
            found = match found {
                Found::None => Found::One(&cell.value),
                Found::One(_) => Found::More,
                Found::More => Found::More,
            };
        }
    }
    found
}

fn cell(alloc: Global, cells: &RawRow, name: &Text) -> Result<Option<Option<Term>>, NoMemory>
    ensures { IfOk result (λ read. MatchOption read (IsNoCell cells.now name.now) (IsCellOf cells.now name.now)) }
{
    match find(cells, name) {
        Found::None => Ok(Some(None)),
        Found::One(value) => match term(alloc, value)? {
            Some(term) => Ok(Some(Some(term))),
            None => Ok(None),
        },
        Found::More => Ok(None),
    }
}

fn row(alloc: Global, columns: &Columns, cells: &RawRow) -> Result<Option<Row>, NoMemory>
    ensures { IfOk result (λ read. MatchOption read (IsNoRow columns.now cells.now) (IsRowOf columns.now cells.now)) }
{
    if !are_known(columns, cells) {
        return Ok(None);
    }
    let mut row = Row::new(alloc);
    for name in columns.as_slice() {
        match cell(alloc, cells, name)? {
            Some(cell) => row.push(cell)?,
            None => return Ok(None),
        }
    }
    Ok(Some(row))
}

/// The rows in the order of the body.
fn given_rows(alloc: Global, columns: &Columns, raws: &RawRows) -> Result<Option<Rows>, NoMemory>
    ensures { IfOk result (λ read. MatchOption read (Any (IsNoRow columns.now) raws.now) (AllZip (IsRowOf columns.now) raws.now)) }
{
    let mut given = Rows::new(alloc);
    for cells in raws.as_slice() {
        match row(alloc, columns, cells)? {
            Some(row) => given.push(row)?,
            None => return Ok(None),
        }
    }
    Ok(Some(given))
}

/// The answer of a table.
pub fn table(alloc: Global, raw: &RawTable) -> Result<Option<Answer>, NoMemory>
    ensures { IfOk result (λ read. MatchOption read (IsNoTable raw.now) (IsReadAs (Body.Table raw.now))) }
{
    if !are_distinct(raw.columns.as_slice()) {
        return Ok(None);
    }
    let Some(given) = given_rows(alloc, &raw.columns, &raw.rows)? else {
        return Ok(None);
    };
    match ordered(given)? {
        Some(rows) => Ok(Some(Answer::Table {
            columns: copied(alloc, &raw.columns)?,
            rows,
        })),
        None => Ok(None),
    }
}
