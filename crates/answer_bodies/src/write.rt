//! The body of an answer.
ghost use Rattle.std.specs.Prelude.{◌≡◌, ◌++◌, length, map, IfOk, OnOk};
ghost use Rattle.m3_terms.specs.Order.{text_of};
ghost use Rattle.answer_bodies.specs.Writing.{raw_term, raw_triple, raw_cell, raw_row, AreFull};

use m3_terms::{Columns, NoMemory, Row, Rows, Term, Text, Triple, Triples};
use ssap_items::{Kind, RawCell, RawRow, RawRows, RawTable, RawTerm, RawTriple, RawTriples};
use std::alloc::Global;

fn term(term: &Term) -> Result<RawTerm, NoMemory>
    ensures { IfOk result (λ raw. raw ≡ raw_term term.now) }
{
    match term {
        Term::Uri(text) => Ok(RawTerm {
            kind: Kind::Uri,
            text: text.copy()?,
        }),
        Term::Literal(text) => Ok(RawTerm {
            kind: Kind::Literal,
            text: text.copy()?,
        }),
    }
}

fn text(term: &Term) -> Result<Text, NoMemory>
    ensures { IfOk result (λ text. text ≡ text_of term.now) }
{
    match term {
        Term::Uri(text) => text.copy(),
        Term::Literal(text) => text.copy(),
    }
}

fn triple(triple: &Triple) -> Result<RawTriple, NoMemory>
    ensures { IfOk result (λ raw. raw ≡ raw_triple triple.now) }
{
    Ok(RawTriple {
        subject: term(&triple.subject)?,
        predicate: text(&triple.predicate)?,
        object: term(&triple.object)?,
    })
}

/// The triples as a body spells them.
pub fn raw_triples(alloc: Global, triples: &Triples) -> Result<RawTriples, NoMemory>
    ensures { IfOk result (λ raws. raws ≡ map raw_triple triples.now) }
{
    let mut raws = RawTriples::new(alloc);
    for item in triples.as_slice() {
        raws.push(triple(item)?)?;
    }
    Ok(raws)
}

/// Puts a bound cell behind the others, and nothing for an unbound one.
fn push_cell(raw: &mut RawRow, name: &Text, cell: &Option<Term>) -> Result<(), NoMemory>
    ensures { OnOk result (raw.new ≡ raw.old ++ raw_cell name.now cell.now) }
{
    if let Some(bound) = cell {
        raw.push(RawCell {
            name: name.copy()?,
            value: term(bound)?,
        })?;
    }
    Ok(())
}

fn row(alloc: Global, columns: &Columns, cells: &Row) -> Result<RawRow, NoMemory>
    requires { length cells.now ≡ length columns.now }
    ensures { IfOk result (λ raw. raw ≡ raw_row columns.now cells.now) }
{
    let names = columns.as_slice();
    let mut raw = RawRow::new(alloc);
    for (i, cell) in cells.as_slice().iter().enumerate() {
        push_cell(&mut raw, &names[i], cell)?;
    }
    Ok(raw)
}

fn rows(alloc: Global, columns: &Columns, rows: &Rows) -> Result<RawRows, NoMemory>
    requires { AreFull columns.now rows.now }
    ensures { IfOk result (λ raws. raws ≡ map (raw_row columns.now) rows.now) }
{
    let mut raws = RawRows::new(alloc);
    for cells in rows.as_slice() {
        raws.push(row(alloc, columns, cells)?)?;
    }
    Ok(raws)
}

/// Equal columns.
pub fn copied(alloc: Global, columns: &Columns) -> Result<Columns, NoMemory>
    ensures { IfOk result (λ copied. copied ≡ columns.now) }
{
    let mut copied = Columns::new(alloc);
    for name in columns.as_slice() {
        copied.push(name.copy()?)?;
    }
    Ok(copied)
}

/// The table as a body spells it.
pub fn raw_table(alloc: Global, columns: &Columns, cells: &Rows) -> Result<RawTable, NoMemory>
    requires { AreFull columns.now cells.now }
    ensures { IfOk result (λ raw. raw ≡ record { columns = columns.now; rows = map (raw_row columns.now) cells.now }) }
{
    Ok(RawTable {
        columns: copied(alloc, columns)?,
        rows: rows(alloc, columns, cells)?,
    })
}
