//! Answers to template lists and solutions of basic graph patterns, read from a view of the graph.
#![tactic(auto)]

mod bgp;
mod extend;
mod fault;
mod mask;
mod matching;
mod rows;

pub use bgp::bgp_all;
pub use fault::EvalFault;
pub use matching::{WIDTH_LIMIT, matches};
pub use rows::rows_of;
