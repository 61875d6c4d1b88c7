//! Writes envelopes in their canonical spelling: into a vector, to a sink, or as a count of bytes alone. The pieces that a
//! spelling is made of are there for other things that are written to a sink.
#![tactic(auto)]

mod bounded;
mod buffer;
mod counting;
mod elements;
mod fault;
mod gather;
mod message;
mod out;
mod spell;
mod table;
mod text;
mod triples;
mod vector;

pub use bounded::to_bytes_within;
pub use counting::length;
pub use fault::EncodeFault;
pub use gather::{write, write_spelled};
pub use out::Out;
pub use spell::{Each, Nothing, Raw, Spell, Then};
pub use text::Escaped;
pub use vector::to_bytes;
