//! A script that is made from a number: one node joins, subscribes fifty times, and makes so many updates.
#![tactic(auto)]

mod entry;
mod laws;
mod request;
mod script;
mod texts;

pub use entry::made_entry;
pub use laws::{made_entries_are_counted, made_scripts_are_scripts};
pub use script::{made_len, make_script};
pub use texts::made_space;
