//! The machine of messages accepts just the messages of the grammar.
#![tactic(auto)]

mod laws;

pub use laws::{machine_reads_messages, viability_is_decided, wholes_exist};
