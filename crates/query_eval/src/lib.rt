//! Answers to queries over a view of the graph.
#![tactic(auto)]

mod evaluate;
mod lists;
mod operators;
mod query;
mod taken;

pub use query::{answer, part_rows};
