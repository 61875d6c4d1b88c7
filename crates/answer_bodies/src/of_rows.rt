//! The answers of rows of numbers, by the terms that a table gives them.
ghost use Rattle.std.specs.Prelude.{◌≡◌, IfOk, length, map, filter_map};
ghost use Rattle.m3_terms.specs.Order.{row_cmp};
ghost use Rattle.m3_terms.specs.TermTable.{NamesOnce};
ghost use Rattle.answer_bodies.specs.Lists.{IsOrdered};
ghost use Rattle.answer_bodies.specs.OfRows.{term_in, triple_of_row, row_of, AreTripleRows, AreBoundAmong, AreNamed, IsOfTriples, IsOfRows};
ghost use Rattle.answer_bodies.specs.Writing.{IsFull};

use crate::Answer;
use crate::lists::sorted;
use crate::write::copied;
use m3_terms::{Columns, NoMemory, Row, Rows, Term, TermId, TermTable, Triple, Triples};
use sparql_algebra::{IdRows, Mapping, Var, VarList};
use std::alloc::Global;

// The term of a variable, in memory of its own, or `None` where the row leaves it unbound.
fn term<T: TermTable>(row: &Mapping, var: Var, table: &T) -> Result<Option<Term>, NoMemory>
    ensures { IfOk result (λ term. term ≡ term_in (T.terms table.now) row.now var) }
{
    let Some(id) = row.get(var) else {
        return Ok(None);
    };
    match table.term_of(id) {
        Some(term) => Ok(Some(term.copy()?)),
        None => Ok(None),
    }
}

fn triple<T: TermTable>(row: &Mapping, table: &T) -> Result<Option<Triple>, NoMemory>
    ensures { IfOk result (λ triple. triple ≡ triple_of_row (T.terms table.now) row.now) }
{
    let Some(subject) = term(row, Var(0), table)? else {
        return Ok(None);
    };
    let Some(predicate) = term(row, Var(1), table)? else {
        return Ok(None);
    };
    let Some(object) = term(row, Var(2), table)? else {
        return Ok(None);
    };
    Ok(Triple::new(subject, predicate, object))
}

// The triples in the order of the rows.
fn triples<T: TermTable>(alloc: Global, rows: &[Mapping], table: &T) -> Result<Triples, NoMemory>
    ensures { IfOk result (λ triples. triples ≡ filter_map (triple_of_row (T.terms table.now)) rows.now) }
{
    let mut triples = Triples::new(alloc);
    for row in rows {
        if let Some(triple) = triple(row, table)? {
            triples.push(triple)?;
        }
    }
    Ok(triples)
}

fn cells<T: TermTable>(
    alloc: Global,
    row: &Mapping,
    variables: &VarList,
    table: &T,
) -> Result<Row, NoMemory>
    ensures { IfOk result (λ cells. cells ≡ row_of (T.terms table.now) variables.now row.now) }
{
    let mut cells = Row::new(alloc);
    for var in variables.as_slice() {
        cells.push(term(row, *var, table)?)?;
    }
    Ok(cells)
}

// The cells of each row, in the order of the rows.
fn lines<T: TermTable>(
    alloc: Global,
    rows: &[Mapping],
    variables: &VarList,
    table: &T,
) -> Result<Rows, NoMemory>
    ensures { IfOk result (λ lines. lines ≡ map (row_of (T.terms table.now) variables.now) rows.now) }
{
    let mut lines = Rows::new(alloc);
    for row in rows {
        lines.push(cells(alloc, row, variables, table)?)?;
    }
    Ok(lines)
}

// That no two numbers have one term, as any call tells.
fn names_once<T: TermTable>(table: &T)
    ensures { NamesOnce (T.terms table.now) }
{
    table.term_of(TermId(0));
}

// The cells of each row, in their order.
fn ordered_lines<T: TermTable>(
    alloc: Global,
    rows: &IdRows,
    variables: &VarList,
    table: &T,
) -> Result<Rows, NoMemory>
    requires bound { AreBoundAmong variables.now rows.now.rows }
    requires named { AreNamed (T.terms table.now) rows.now.rows }
    ensures { IfOk result (IsOrdered row_cmp (map (row_of (T.terms table.now) variables.now) rows.now.rows)) }
{
    names_once(table);
    let unordered = lines(alloc, rows.as_slice(), variables, table)?;
    sorted(unordered)
}

impl Answer {
    /// The answer of rows of three numbers each: the triples of their terms, in order.
    pub fn of_triples<T: TermTable>(
        alloc: Global,
        rows: &IdRows,
        table: &T,
    ) -> Result<Answer, NoMemory>
        requires rows { AreTripleRows (T.terms table.now) rows.now.rows }
        ensures triples { IfOk result (IsOfTriples (T.terms table.now) rows.now.rows) }
        ensures full { IfOk result IsFull }
    {
        names_once(table);
        let given = triples(alloc, rows.as_slice(), table)?;
        Ok(Answer::Triples(sorted(given)?))
    }

    /// The table of these columns: each cell has the term that the variable at the column's place is bound to, or is
    /// unbound. A variable may stand twice.
    pub fn of_rows<T: TermTable>(
        alloc: Global,
        columns: &Columns,
        variables: &VarList,
        rows: &IdRows,
        table: &T,
    ) -> Result<Answer, NoMemory>
        requires one_length { length columns.now ≡ length variables.now }
        requires bound { AreBoundAmong variables.now rows.now.rows }
        requires named { AreNamed (T.terms table.now) rows.now.rows }
        ensures table { IfOk result (IsOfRows (T.terms table.now) columns.now variables.now rows.now.rows) }
        ensures full { IfOk result IsFull }
    {
        Ok(Answer::Table {
            columns: copied(alloc, columns)?,
            rows: ordered_lines(alloc, rows, variables, table)?,
        })
    }
}
