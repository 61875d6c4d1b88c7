//! Terms under numbers: each term is kept once, and what the terms cost has a limit.
#![tactic(auto)]

mod both;
mod cost;
mod draft;
mod fault;
mod interner;
mod keys;
mod laws;

pub use both::Both;
pub use draft::Draft;
pub use fault::InternFault;
pub use interner::Interner;
pub use keys::TermKeys;
pub use laws::{longer_tables_extend, numbers_stay, terms_are_found};
