//! Texts, terms and triples: the facts that the programs of one space share.
#![tactic(auto)]

mod bytes;
mod hash;
mod items;
mod memory;
mod order;
mod pattern;
mod plain;
mod steps;
mod table;
mod term;
mod text;
mod triple;

pub use bytes::Bytes;
pub use items::{Columns, Items, Patterns, Row, Rows, TermList, Triples};
pub use memory::NoMemory;
pub use pattern::{Pattern, Slot};
pub use steps::Steps;
pub use table::{TermId, TermTable};
pub use term::{TERM_LIMIT, Term, TermFault};
pub use text::{Text, text_len};
pub use triple::Triple;
