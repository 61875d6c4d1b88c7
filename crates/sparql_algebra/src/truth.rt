//! The value of a condition for a mapping, whose numbers a table names.
ghost use Rattle.std.specs.Prelude.{◌≡◌, ◌↔◌, IsTrue};
ghost use Rattle.std.specs.Option.{option_map};
ghost use Rattle.sparql_algebra.specs.TermSolutions.{solution_in, term_at};
ghost use Rattle.sparql_algebra.specs.Truth.{truth, truth_of, not_of, or_of, and_of, operand_term, compared};
ghost use Rattle.sparql_algebra.specs.Meant.{meaning};

use crate::meant::{
    Meant, as_literal, boolean, borrowed, contains, iri, less, literal, same, starts,
};
use crate::{Compare, Expr, Mapping, Operand, Truth, Var};
use m3_terms::TermTable;

impl Truth {
    /// A test as a value.
    pub fn of(test: bool) -> Truth
        ensures { result ≡ truth_of test }
    {
        if test { Truth::True } else { Truth::False }
    }

    /// Whether it is true; an error is not.
    pub fn is_true(self) -> bool
        ensures { IsTrue result ↔ (self ≡ Truth.True) }
    {
        match self {
            Truth::True => true,
            Truth::False => false,
            Truth::Error => false,
        }
    }

    /// True and false exchanged; an error stays.
    pub fn not(self) -> Truth
        ensures { result ≡ not_of self }
    {
        match self {
            Truth::True => Truth::False,
            Truth::False => Truth::True,
            Truth::Error => Truth::Error,
        }
    }

    /// True where either is, else an error where either is one, else false.
    pub fn or(self, other: Truth) -> Truth
        ensures { result ≡ or_of self other }
    {
        match (self, other) {
            (Truth::True, _) => Truth::True,
            (Truth::False, right) => right,
            (Truth::Error, Truth::True) => Truth::True,
            (Truth::Error, Truth::False) => Truth::Error,
            (Truth::Error, Truth::Error) => Truth::Error,
        }
    }

    /// False where either is, else an error where either is one, else true.
    pub fn and(self, other: Truth) -> Truth
        ensures { result ≡ and_of self other }
    {
        match (self, other) {
            (Truth::True, right) => right,
            (Truth::False, _) => Truth::False,
            (Truth::Error, Truth::True) => Truth::Error,
            (Truth::Error, Truth::False) => Truth::False,
            (Truth::Error, Truth::Error) => Truth::Error,
        }
    }
}

impl Operand {
    // The term that the operand gives, or `None` where it has an unbound variable.
    fn value<'a, T: TermTable>(&'a self, mapping: &Mapping, table: &'a T) -> Option<Meant<'a>>
        ensures { option_map meaning result ≡ operand_term self.now (solution_in (T.terms table.now) mapping.now) }
    {
        match self {
            Operand::Var(var) => named(*var, mapping, table),
            Operand::Is(term) => Some(borrowed(term)),
            Operand::Str(operand) => match operand.get().value(mapping, table) {
                None => None,
                Some(term) => Some(as_literal(term)),
            },
        }
    }
}

// The term that a variable is bound to.
fn named<'a, T: TermTable>(var: Var, mapping: &Mapping, table: &'a T) -> Option<Meant<'a>>
    ensures { option_map meaning result ≡ term_at (solution_in (T.terms table.now) mapping.now) var }
{
    let _rising = mapping.as_slice();
    match mapping.get(var) {
        None => None,
        Some(id) => match table.term_of(id) {
            None => None,
            Some(term) => Some(borrowed(term)),
        },
    }
}

fn compare(sign: Compare, left: Option<Meant>, right: Option<Meant>) -> Truth
    ensures { result ≡ compared sign (option_map meaning left.entry) (option_map meaning right.entry) }
{
    match sign {
        Compare::Equal => same(left, right),
        Compare::NotEqual => same(left, right).not(),
        Compare::Less => less(left, right),
        Compare::Greater => less(right, left),
        Compare::LessEqual => less(right, left).not(),
        Compare::GreaterEqual => less(left, right).not(),
    }
}

impl Expr {
    /// The value of the condition for the solution that the mapping is. It takes no memory.
    pub fn truth<T: TermTable>(&self, mapping: &Mapping, table: &T) -> Truth
        ensures { result ≡ truth self.now (solution_in (T.terms table.now) mapping.now) }
    {
        match self {
            Expr::Or(left, right) => {
                let left = left.get().truth(mapping, table);
                left.or(right.get().truth(mapping, table))
            }
            Expr::And(left, right) => {
                let left = left.get().truth(mapping, table);
                left.and(right.get().truth(mapping, table))
            }
            Expr::Not(inner) => inner.get().truth(mapping, table).not(),
            Expr::Bound(var) => Truth::of(named(*var, mapping, table).is_some()),
            Expr::Value(operand) => boolean(operand.value(mapping, table)),
            Expr::IsIri(operand) => iri(operand.value(mapping, table)),
            Expr::IsLiteral(operand) => literal(operand.value(mapping, table)),
            Expr::Compare(sign, left, right) => compare(
                *sign,
                left.value(mapping, table),
                right.value(mapping, table),
            ),
            Expr::SameTerm(left, right) => {
                same(left.value(mapping, table), right.value(mapping, table))
            }
            Expr::Contains(left, right) => {
                contains(left.value(mapping, table), right.value(mapping, table))
            }
            Expr::StartsWith(left, right) => {
                starts(left.value(mapping, table), right.value(mapping, table))
            }
        }
    }
}
