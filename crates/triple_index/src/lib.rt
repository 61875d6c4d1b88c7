//! The graph as triples of numbers: an index of them, changes to it, and views of it.
#![tactic(auto)]

mod change;
mod index;
mod list;
mod triple;
mod view;

pub use change::Change;
pub use index::Index;
pub use triple::{IdPattern, IdPatterns, IdTriple, IdTriples};
pub use view::{RowsOf, View};
