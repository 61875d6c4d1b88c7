//! A query as far as its tokens were read.
use sparql_algebra::{Algebra, Compare, Expr, Operand, PatternList, Place, VarList};
use sparql_text::Nested;

/// A test that is written as a call.
#[derive(Clone, Copy)]
pub(crate) enum Call {
    Bound,
    IsIri,
    IsLiteral,
    SameTerm,
    Contains,
    StartsWith,
}

/// What stands last in a condition, behind `(`, `!`, `&&` or `||`.
#[derive(Drop)]
pub(crate) enum Latest {
    /// Nothing yet.
    Nothing,
    /// An operand, which may be compared.
    Alone(Operand),
    /// An operand and a sign.
    Compared(Operand, Compare),
    /// The word of a call.
    Called(Call),
    /// A call with its first operand.
    One(Call, Operand),
    /// A call with two operands.
    Two(Call, Operand, Operand),
    /// A whole condition.
    Whole(Expr),
}

/// The conditions behind a `(`, as far as they were read.
#[derive(Drop)]
pub(crate) struct Level {
    /// What stands before the last `||`.
    pub either: Option<Expr>,
    /// What stands behind that and before the last `&&`.
    pub both: Option<Expr>,
    /// Whether `!` stands before what comes last.
    pub negated: bool,
    pub latest: Latest,
}

/// A condition of a FILTER, as far as it was read.
#[derive(Drop)]
pub(crate) struct Condition {
    /// The conditions behind the last `(` that is open, or behind FILTER.
    pub level: Level,
    /// Those around them.
    pub outer: Nested<Level>,
    /// Whether `STR` is open.
    pub text: bool,
}

/// How the next group in a group goes into it.
#[derive(Clone, Copy)]
pub(crate) enum Role {
    /// It is an element.
    Element,
    /// UNION joins it to the groups before it.
    Union,
    /// It is optional.
    Optional,
}

/// A group, as far as it was read.
#[derive(Drop)]
pub(crate) struct Inside {
    /// What its elements before the last triple patterns make.
    pub before: Algebra,
    /// The triple patterns since.
    pub run: PatternList,
    /// Its conditions, joined by `&&`.
    pub conditions: Option<Expr>,
    /// The groups that stand last and may yet be joined by UNION.
    pub alternatives: Option<Algebra>,
    pub next: Role,
}

/// What was read of a triple pattern.
#[derive(Drop)]
pub(crate) enum Said {
    Nothing,
    Subject(Place),
    Verb(Place, Place),
}

/// A query, as far as its tokens were read.
#[derive(Drop)]
pub(crate) struct Draft {
    /// The innermost group that is open; at first one around the whole query.
    pub group: Inside,
    /// The groups around it.
    pub outer: Nested<Inside>,
    /// The FILTER that is open.
    pub condition: Option<Condition>,
    pub said: Said,
    /// The columns so far, each once.
    pub columns: VarList,
    /// Whether the columns are those of the triple patterns.
    pub all: bool,
}
