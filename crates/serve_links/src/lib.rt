//! A server of links: it opens a link for each connection, and begins the two jobs that pump it.
#![tactic(auto)]

mod job;
mod serve;
mod served;

pub use job::{Half, LinkJob};
pub use serve::sib_serve;
pub use served::{ServeEnd, Served};
