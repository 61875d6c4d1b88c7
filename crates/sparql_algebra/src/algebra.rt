use crate::{Expr, PatternList, VarList};
use m3_terms::Columns;
use sqlite_items::Boxed;

/// A graph pattern in SPARQL's algebra (SPARQL 1.1, section 18.2).
#[derive(Debug, Drop)]
pub enum Algebra {
    Bgp(PatternList),
    Join(Boxed<Algebra>, Boxed<Algebra>),
    Union(Boxed<Algebra>, Boxed<Algebra>),
    /// Without a condition it counts as true.
    LeftJoin(Boxed<Algebra>, Boxed<Algebra>, Option<Expr>),
    Filter(Expr, Boxed<Algebra>),
}

/// A query: the names of its variables by their numbers, the columns of its answer, and its pattern.
#[derive(Debug, Drop)]
pub struct Query {
    pub names: Columns,
    pub columns: VarList,
    pub pattern: Algebra,
}
