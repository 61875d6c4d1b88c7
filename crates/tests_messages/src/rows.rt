//! The answers of rows of numbers.
ghost use Rattle.std.specs.Prelude.{◌≡◌, ◌∷◌, [], IfOk, length};
ghost use Rattle.sparql_algebra.specs.Solutions.{binding};
ghost use Rattle.tests_messages.specs.Rows.{four_terms, triple_rows as three_triples, pair_rows as three_pairs, variables as three_variables};

use crate::bodies::{message, with_body};
use answer_bodies::Answer;
use m3_intern::Interner;
use m3_terms::{Columns, NoMemory, Term, TermId, TermList, Text};
use sparql_algebra::{IdRows, Mapping, Var, VarList};
use std::alloc::Global;
use std::test::Fail;

/// The triples of rows of three numbers, in order.
const TRIPLES: &str =
    "<triple_list><triple><subject type=\"uri\">a</subject><predicate>p</predicate><object type=\"uri\">b</object></triple><triple><subject type=\"uri\">a</subject><predicate>p</predicate><object type=\"literal\">x</object></triple><triple><subject type=\"uri\">b</subject><predicate>p</predicate><object type=\"literal\">x</object></triple></triple_list>";

/// The table of rows of two variables, of which the second stands in two columns, and is unbound in one row.
const TABLE: &str =
    "<sparql xmlns=\"http://www.w3.org/2005/sparql-results#\"><head><variable name=\"y\"/><variable name=\"x\"/><variable name=\"z\"/></head><results><result><binding name=\"x\"><uri>a</uri></binding></result><result><binding name=\"y\"><uri>a</uri></binding><binding name=\"x\"><uri>b</uri></binding><binding name=\"z\"><uri>a</uri></binding></result><result><binding name=\"y\"><uri>b</uri></binding><binding name=\"x\"><literal>x</literal></binding><binding name=\"z\"><uri>b</uri></binding></result></results></sparql>";

// The uris `b`, `a` and `p`, and the literal `x`, under the numbers from 0 on.
fn table(alloc: Global) -> Result<Interner, Fail>
    ensures { IfOk result (λ table. table.terms ≡ four_terms) }
{
    let mut wanted = TermList::new(alloc);
    wanted.push(Term::uri(alloc, b"b")?)?;
    wanted.push(Term::uri(alloc, b"a")?)?;
    wanted.push(Term::uri(alloc, b"p")?)?;
    wanted.push(Term::literal(alloc, b"x")?)?;
    let mut table = Interner::new(alloc, 1000);
    let draft = table.draft(wanted)?;
    table.reserve_for(&draft)?;
    table.commit(draft);
    Ok(table)
}

fn triple_rows(alloc: Global) -> Result<IdRows, NoMemory>
    ensures { IfOk result (λ rows. rows.rows ≡ three_triples) }
{
    let mut rows = IdRows::new(alloc);
    rows.add_three(alloc, TermId(0), TermId(2), TermId(3))?;
    rows.add_three(alloc, TermId(1), TermId(2), TermId(3))?;
    rows.add_three(alloc, TermId(1), TermId(2), TermId(0))?;
    Ok(rows)
}

#[test]
fn rows_of_three_numbers_are_triples_in_order(rt: HostRuntime) -> Result<(), Fail> {
    let alloc = rt.alloc();
    let answer = Answer::of_triples(alloc, &triple_rows(alloc)?, &table(alloc)?)?;
    let written = with_body(alloc, &message(alloc, "x")?, answer.to_body(alloc)?)?;
    assert_eq!(rt; written.as_slice(), message(alloc, TRIPLES)?.as_slice());
    Ok(())
}

// The row that binds the variable 0 alone.
fn single(alloc: Global, first: u32) -> Result<Mapping, NoMemory>
    ensures { IfOk result (λ row. row ≡ binding 0 first ∷ []) }
{
    let mut row = Mapping::new(alloc);
    row.bind(Var(0), TermId(first))?;
    Ok(row)
}

// The row that binds the variables 0 and 1.
fn pair(alloc: Global, first: u32, second: u32) -> Result<Mapping, NoMemory>
    ensures { IfOk result (λ row. row ≡ binding 0 first ∷ binding 1 second ∷ []) }
{
    let mut row = single(alloc, first)?;
    row.bind(Var(1), TermId(second))?;
    Ok(row)
}

fn pair_rows(alloc: Global) -> Result<IdRows, NoMemory>
    ensures { IfOk result (λ rows. rows.rows ≡ three_pairs) }
{
    let mut rows = IdRows::new(alloc);
    rows.add(pair(alloc, 3, 0)?)?;
    rows.add(pair(alloc, 0, 1)?)?;
    rows.add(single(alloc, 1)?)?;
    Ok(rows)
}

fn variables(alloc: Global) -> Result<VarList, NoMemory>
    ensures { IfOk result (λ variables. variables ≡ three_variables) }
{
    let mut variables = VarList::new(alloc);
    variables.push(Var(1))?;
    variables.push(Var(0))?;
    variables.push(Var(1))?;
    Ok(variables)
}

fn columns(alloc: Global) -> Result<Columns, Fail>
    ensures { IfOk result (λ columns. length columns ≡ 3) }
{
    let mut columns = Columns::new(alloc);
    columns.push(Text::read(alloc, b"y")?)?;
    columns.push(Text::read(alloc, b"x")?)?;
    columns.push(Text::read(alloc, b"z")?)?;
    Ok(columns)
}

#[test]
fn rows_are_tables_in_order(rt: HostRuntime) -> Result<(), Fail> {
    let alloc = rt.alloc();
    let answer = Answer::of_rows(
        alloc,
        &columns(alloc)?,
        &variables(alloc)?,
        &pair_rows(alloc)?,
        &table(alloc)?,
    )?;
    let written = with_body(alloc, &message(alloc, "x")?, answer.to_body(alloc)?)?;
    assert_eq!(rt; written.as_slice(), message(alloc, TABLE)?.as_slice());
    Ok(())
}
