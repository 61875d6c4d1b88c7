//! One history of calls over threads: a machine, and seats that take turns at it.
#![tactic(auto)]

mod faults;
mod machine;
mod plays;
mod seat;
mod turn;
mod view;

pub use faults::{CallFault, Closed, TryFault};
pub use machine::Machine;
pub use seat::TurnSeat;
pub use turn::Turn;
pub use view::Entry;
