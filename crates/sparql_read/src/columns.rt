//! The columns of a query, each once, and the names of its variables.
ghost use Rattle.std.specs.Prelude.{◌≡◌, ◌∷◌, [], IfOk, OnOk, if◌then◌else◌, fold, nat_eq};
ghost use Rattle.std.specs.List.{list_any};
ghost use Rattle.sparql_text.specs.Naming.{texts};
ghost use Rattle.sparql_text.specs.Translation.{variable_at, variables_of};
ghost use Rattle.sparql_read.specs.Drafting.{with_column};

use crate::terms::only_memory;
use m3_terms::{Columns, NoMemory, Text};
use sparql_algebra::{PatternTriple, Place, Var, VarList};
use std::alloc::Global;

/// Whether a variable is among others.
fn is_among(columns: &[Var], var: Var) -> bool
    ensures { result ≡ list_any (λ known. nat_eq known.0 var.0) columns.now }
{
    columns.iter().any(|known| known.0 == var.0)
}

/// A column comes, unless it is one.
pub(crate) fn with_column(columns: &mut VarList, var: Var) -> Result<(), NoMemory>
    ensures { OnOk result (columns.new ≡ with_column columns.old var) }
{
    if is_among(columns.as_slice(), var) {
        return Ok(());
    }
    columns.push(var)
}

/// The variable at a position comes as a column.
fn with_place(columns: &mut VarList, place: &Place) -> Result<(), NoMemory>
    ensures { OnOk result (columns.new ≡ fold with_column columns.old (variable_at place.now)) }
{
    match place {
        Place::Var(var) => with_column(columns, *var),
        Place::Is(_) => Ok(()),
    }
}

/// The variables of a triple pattern come as columns.
fn with_variables(columns: &mut VarList, triple: &PatternTriple) -> Result<(), NoMemory>
    ensures { OnOk result (columns.new ≡ fold with_column columns.old (variables_of triple.now)) }
{
    with_place(columns, &triple.subject)?;
    with_place(columns, &triple.predicate)?;
    with_place(columns, &triple.object)
}

/// The variables of a triple pattern come as columns, where all are.
pub(crate) fn with_variables_if(
    all: bool,
    columns: &mut VarList,
    triple: &PatternTriple,
) -> Result<(), NoMemory>
    ensures { OnOk result (columns.new ≡ (if all then fold with_column columns.old (variables_of triple.now) else columns.old)) }
{
    if all {
        with_variables(columns, triple)
    } else {
        Ok(())
    }
}

/// The names of variables, in memory of their own.
pub(crate) fn copy_of_names(alloc: Global, names: &[&[u8]]) -> Result<Columns, NoMemory>
    ensures { IfOk result (λ copy. copy ≡ texts names.now) }
{
    let mut copy = Columns::new(alloc);
    'names: for name in names {
        let text = only_memory(Text::read(alloc, name))?;
        copy.push(text)?;
    }
    Ok(copy)
}
