//! The shared space: one turn over the space, bells for those who wait, and the two pumps of a link.
#![tactic(auto)]

mod bell;
mod calls;
mod ends;
mod incoming;
mod intake;
mod laws;
mod outgoing;
mod space;

pub use ends::{InEnd, OutEnd};
pub use incoming::pump_in;
pub use laws::seats_keep_their_calls;
pub use outgoing::pump_out;
pub use space::Space;
