//! How a server ends.

use session_core::Core;
use space_turn::TurnSeat;

/// Why a server ended.
#[derive(Clone, Copy, Debug, PartialEq, Eq)]
pub enum ServeEnd {
    /// No connection waits.
    Ended,
    /// The connections failed.
    AcceptFault,
    /// A job could not be begun.
    NoThread,
    /// The history has as many calls as it may have.
    Worn { count: u64 },
    /// Out of memory.
    NoMemory,
}

/// How a server ended, and the seat of its own calls. It has none only out of memory.
#[derive(Drop)]
pub struct Served {
    pub end: ServeEnd,
    pub seat: Option<TurnSeat<Core>>,
}
