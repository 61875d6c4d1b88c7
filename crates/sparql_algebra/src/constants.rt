//! The terms that a graph pattern names.
ghost use Rattle.std.specs.Prelude.{◌≡◌, ◌++◌, OnOk, flat_map, option_copied};
ghost use Rattle.sparql_algebra.specs.Constants.{of_place as terms_of_place, of_triple as terms_of_triple, of_operand as terms_of_operand, of_condition as terms_of_condition, of_option as terms_of_option, constants_of};

use crate::{Algebra, Expr, Operand, PatternList, PatternTriple, Place};
use m3_terms::{NoMemory, TermList};

fn of_place(place: &Place, into: &mut TermList) -> Result<(), NoMemory>
    ensures { OnOk result (into.new ≡ into.old ++ terms_of_place place.now) }
{
    match place {
        Place::Var(_) => Ok(()),
        Place::Is(term) => into.push(term.copy()?),
    }
}

fn of_triple(pattern: &PatternTriple, into: &mut TermList) -> Result<(), NoMemory>
    ensures { OnOk result (into.new ≡ into.old ++ terms_of_triple pattern.now) }
{
    of_place(&pattern.subject, into)?;
    of_place(&pattern.predicate, into)?;
    of_place(&pattern.object, into)
}

fn of_triples(patterns: &PatternList, into: &mut TermList) -> Result<(), NoMemory>
    ensures { OnOk result (into.new ≡ into.old ++ flat_map terms_of_triple patterns.now) }
{
    for pattern in patterns.as_slice() {
        of_triple(pattern, into)?;
    }
    Ok(())
}

// It calls itself for the operand of each STR.
fn of_operand(operand: &Operand, into: &mut TermList) -> Result<(), NoMemory>
    ensures { OnOk result (into.new ≡ into.old ++ terms_of_operand operand.now) }
{
    match operand {
        Operand::Var(_) => Ok(()),
        Operand::Is(term) => into.push(term.copy()?),
        Operand::Str(inner) => of_operand(inner.get(), into),
    }
}

fn of_operands(left: &Operand, right: &Operand, into: &mut TermList) -> Result<(), NoMemory>
    ensures { OnOk result (into.new ≡ into.old ++ (terms_of_operand left.now ++ terms_of_operand right.now)) }
{
    of_operand(left, into)?;
    of_operand(right, into)
}

// It calls itself for each side of a condition.
fn of_condition(condition: &Expr, into: &mut TermList) -> Result<(), NoMemory>
    ensures { OnOk result (into.new ≡ into.old ++ terms_of_condition condition.now) }
{
    match condition {
        Expr::Or(left, right) => {
            of_condition(left.get(), into)?;
            of_condition(right.get(), into)
        }
        Expr::And(left, right) => {
            of_condition(left.get(), into)?;
            of_condition(right.get(), into)
        }
        Expr::Not(inner) => of_condition(inner.get(), into),
        Expr::Bound(_) => Ok(()),
        Expr::Value(operand) | Expr::IsIri(operand) | Expr::IsLiteral(operand) => {
            of_operand(operand, into)
        }
        Expr::Compare(_, left, right)
        | Expr::SameTerm(left, right)
        | Expr::Contains(left, right)
        | Expr::StartsWith(left, right) => of_operands(left, right, into),
    }
}

fn of_option(condition: Option<&Expr>, into: &mut TermList) -> Result<(), NoMemory>
    ensures { OnOk result (into.new ≡ into.old ++ terms_of_option (option_copied condition.entry)) }
{
    match condition {
        Some(condition) => of_condition(condition, into),
        None => Ok(()),
    }
}

impl Algebra {
    /// Appends a copy of each term that the pattern names: those of its triple patterns and of its conditions, in the order
    /// in which they are written. A term that is named twice comes twice. After `NoMemory` some may have been appended. The
    /// depth of the calls is that of the pattern.
    pub fn constants(&self, into: &mut TermList) -> Result<(), NoMemory>
        ensures { OnOk result (into.new ≡ into.old ++ constants_of self.now) }
    {
        match self {
            Algebra::Bgp(patterns) => of_triples(patterns, into),
            Algebra::Join(left, right) => {
                left.get().constants(into)?;
                right.get().constants(into)
            }
            Algebra::Union(left, right) => {
                left.get().constants(into)?;
                right.get().constants(into)
            }
            Algebra::LeftJoin(left, right, condition) => {
                left.get().constants(into)?;
                right.get().constants(into)?;
                of_option(condition.as_ref(), into)
            }
            Algebra::Filter(condition, inner) => {
                inner.get().constants(into)?;
                of_condition(condition, into)
            }
        }
    }
}
