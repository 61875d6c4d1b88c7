//! How far the bytes of a link are let through: laws alone.
#![tactic(auto)]

mod laws;

pub use laws::links_are_heard_once;
