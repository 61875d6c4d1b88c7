//! Reads a stream of SSAP messages in any pieces, one message at a time.
#![tactic(auto)]

mod decoder;
mod envelope;
mod framed;
mod next_byte;
mod walk;

pub use decoder::Decoder;
pub use framed::{Framed, MESSAGE_LIMIT, Stop};
