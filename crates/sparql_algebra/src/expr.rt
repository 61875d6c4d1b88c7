use crate::Var;
use m3_terms::Term;
use sqlite_items::Boxed;

/// What an expression compares or tests: a variable, a term, or STR of an operand.
#[derive(Debug, Drop)]
pub enum Operand {
    Var(Var),
    Is(Term),
    Str(Boxed<Operand>),
}

/// The sign of a comparison.
#[derive(Clone, Copy, Debug, PartialEq, Eq)]
pub enum Compare {
    Equal,
    NotEqual,
    Less,
    Greater,
    LessEqual,
    GreaterEqual,
}

/// A condition of a FILTER.
#[derive(Debug, Drop)]
pub enum Expr {
    Or(Boxed<Expr>, Boxed<Expr>),
    And(Boxed<Expr>, Boxed<Expr>),
    Not(Boxed<Expr>),
    /// An operand alone, by its effective boolean value.
    Value(Operand),
    Compare(Compare, Operand, Operand),
    Bound(Var),
    IsIri(Operand),
    IsLiteral(Operand),
    SameTerm(Operand, Operand),
    Contains(Operand, Operand),
    StartsWith(Operand, Operand),
}

/// The value of a condition for a solution (SPARQL 1.1, section 17.2).
#[derive(Clone, Copy, Debug, PartialEq, Eq)]
pub enum Truth {
    True,
    False,
    Error,
}
