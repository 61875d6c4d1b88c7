//! The links of a space: their states, and the messages that wait on them.
#![tactic(auto)]

mod entry;
mod index;
mod links;
mod message;
mod open_link;
mod state;

pub use links::{LINK_LIMIT, Links, PENDING_LIMIT};
pub use message::Message;
pub use open_link::OpenLink;
pub use state::LinkState;
