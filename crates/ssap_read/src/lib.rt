//! Reads the envelope that bytes spell, exactly by the grammar of SSAP messages.
#![tactic(auto)]

mod attribute;
mod element;
mod gather;
mod head;
mod kind;
mod message;
mod parameter;
mod piece;
mod table;
mod text;
mod triple;

pub use message::read_envelope;
