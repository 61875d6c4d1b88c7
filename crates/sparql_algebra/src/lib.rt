//! Solutions of queries, by numbers of terms.
#![tactic(auto)]

mod algebra;
mod constants;
mod expr;
mod filter;
mod gather;
mod join;
mod laws;
mod left_join;
mod mapping;
mod meant;
mod merge;
mod near;
mod passing;
mod pattern;
mod project;
mod rows;
mod truth;
mod union;
mod var;

pub use algebra::{Algebra, Query};
pub use expr::{Compare, Expr, Operand, Truth};
pub use filter::filter_rows;
pub use gather::RowsFault;
pub use join::join_rows;
pub use laws::{answers_are_computed, solutions_are_listed, widths_are_computed};
pub use left_join::left_join_rows;
pub use mapping::{Binding, Mapping};
pub use pattern::{PatternList, PatternTriple, Place};
pub use project::project_rows;
pub use rows::IdRows;
pub use union::union_rows;
pub use var::{Var, VarList};
