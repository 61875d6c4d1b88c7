//! SSAP messages as values: an envelope has five heads and a list of parameters.
#![tactic(auto)]

mod body;
mod envelope;
mod heads;
mod lists;
mod tags;

pub use body::{Body, Kind, RawCell, RawTable, RawTerm, RawTriple};
pub use envelope::{Envelope, Param};
pub use heads::{Heads, MessageType, Transaction};
pub use lists::{Params, RawRow, RawRows, RawTriples};
pub use tags::{Tag, TagName, Tags};
