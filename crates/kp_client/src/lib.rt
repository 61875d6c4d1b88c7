//! A client: requests and what answers them, and the answer of a subscription kept up to date.
#![tactic(auto)]

mod client;
mod event;
mod fault;
mod form;
mod laws;
mod mirror;
mod refusal;
mod rows;
mod waiting;

pub use client::Client;
pub use event::Event;
pub use fault::{Awaited, ClientFault, MirrorFault};
pub use laws::{forms_differ, mirrors_fold, refusals_are_exact, worked_examples};
pub use mirror::Mirror;
