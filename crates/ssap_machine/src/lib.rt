//! The grammar of messages as a machine: a stack of symbols that are still to come, each with the lexemes that it may
//! begin with and the symbols that then stand in its place. No lexeme of a symbol begins another.
#![tactic(auto)]

mod candidates;
mod characters;
mod choice;
mod plain;
mod progress;
mod push;
mod stack;
mod step;
mod symbol;
mod words;

pub use progress::{Progress, advance};
pub use stack::Stack;
pub use symbol::{Brackets, Seen, Symbol, Words};
