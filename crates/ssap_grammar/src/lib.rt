//! The closed stream grammar of SSAP messages: which bytes spell which envelope, and where messages stand in a stream.
//! The grammar is in `specs/`, one file for each part of a message, in the names of its productions.
#![tactic(auto)]

mod laws;

pub use laws::{
    canonical_spells, messages_are_spelled, messages_stay, one_reading, parts_are_inside,
    places_are_told, spellings_are_sayable, streams_grow, unfinished_begins, vectors,
    worked_examples,
};
