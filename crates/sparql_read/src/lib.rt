//! The query that a text says.
#![tactic(auto)]

mod columns;
mod conditions;
mod draft;
mod drafting;
mod groups;
mod laws;
mod levels;
mod reading;
mod strings;
mod terms;
mod triples;

pub use laws::{queries_are_drafted, readings_are_exact};
pub use reading::read_query;
pub use sparql_text::{Limit, ReadFault};
